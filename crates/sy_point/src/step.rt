ghost use Rattle.std.specs.Prelude.{◌≡◌, ◌+◌, ◌<◌, ◌+ℤ◌, ℕ, suc, pos, Some, List, length, slice_get, IfOk};
ghost use Rattle.sy_base.specs.Points.{IsDated};
ghost use Rattle.sy_words.specs.declared.kind.Kind.{Kind};
ghost use Rattle.sy_core.specs.declared.deed.Deed.{Deed as ADeed};
ghost use Rattle.sy_core.specs.declared.event.Ev.TheVariants.{Inner};
ghost use Rattle.sy_core.specs.declared.happening.Happening.{Happening as Happened};
ghost use Rattle.sy_core.specs.declared.kind.Target.TheVariants as target;
ghost use Rattle.sy_core.specs.declared.position.Position.{Position};
ghost use Rattle.sy_core.specs.Chronicle.{moment_at};
ghost use Rattle.sy_core.specs.Soundness.{IsSound};
ghost use Rattle.sy_quiet.specs.Exactly.{HasExactly};
ghost use Rattle.sy_core.specs.Wakes.{dates_of_deed};
ghost use Rattle.sy_present.specs.Standing.{StandsFor as PresentStands};
ghost use Rattle.sy_point.specs.Standing.{IsMadeFor, StandsFor, KnowsDates, next_point, has_happened};
ghost use Rattle.sy_point.specs.Machine.Known.{HasSameButDates, HasSpare, KnowsFirst, date_values};

use crate::live::Core;
use std::alloc::Global;
use std::sync::ledger::Ledger;
use sy_base::Memory;
use sy_core::{Deed, Happening};
use sy_outside::Steps;
use sy_present::Present;
use sy_queue::DeadlineQueue;

/// Writes the bits over as many others.
fn copy_bits(from: &[bool], to: &mut [bool])
    requires { length from.now ≡ length to.old }
    ensures { to.new ≡ from.now }
{
    to.copy_from_slice(from);
}

impl Core {
    /// A core that stands at the deed's start, before anything happened. All memory is taken here.
    pub fn new(alloc: Global, deed: &Deed) -> Result<Core, Memory>
        requires { IsSound deed.now }
        ensures start { IfOk result (λ core. (narrative : List Happened) → StandsFor core deed.now narrative 0) }
        ensures made { IfOk result (λ core. IsMadeFor core deed.now) }
        ensures point { IfOk result (λ core. next_point core ≡ deed.now.start) }
    {
        let present = Present::new(alloc, deed)?;
        let terms = present.terms();
        let mut core = Core {
            point: deed.start,
            present,
            fresh: true,
            queue: DeadlineQueue::new(alloc, terms as u32)?,
            queued: vec![in alloc; false; terms]?,
        };
        core.queue_dates();
        Ok(core)
    }

    /// The date of the term with this number is put into the queue, where its value has become known
    /// and is still to come.
    fn queue_date(&mut self, term: usize)
        requires term { term < length self.old.queued.items }
        requires spare { HasSpare self.old }
        ensures same { HasSameButDates self.old self.new }
        ensures spare { HasSpare self.new }
        ensures known { (deed : ADeed) (narrative : List Happened) (n : ℕ)
            → PresentStands self.old.present deed narrative n
            → term < length (dates_of_deed deed)
            → KnowsFirst self.old (date_values deed narrative n) term
            → KnowsFirst self.new (date_values deed narrative n) (term + 1) }
    {
        if self.queued[term] {
            return;
        }
        if let Some(value) = self.present.due(term) {
            self.queued[term] = true;
            if self.point <= value {
                self.queue.put(value);
            }
        }
    }

    /// The dates whose values have become known and are still to come are put into the queue.
    fn queue_dates(&mut self)
        requires spare { HasSpare self.old }
        ensures same { HasSameButDates self.old self.new }
        ensures spare { HasSpare self.new }
        ensures known { (deed : ADeed) (narrative : List Happened) (n : ℕ)
            → PresentStands self.old.present deed narrative n
            → length self.old.queued.items ≡ length (dates_of_deed deed)
            → KnowsFirst self.old (date_values deed narrative n) 0
            → KnowsDates self.new deed narrative n }
    {
        for term in 0..self.queued.len() {
            self.queue_date(term);
        }
    }

    /// Evaluates the next point, which is a date of the deed's unit and at which exactly these
    /// happenings stand, in one pass.
    fn evaluate(&mut self, deed: &Deed, at: &[Happening])
        requires sound { IsSound deed.now }
        requires made { IsMadeFor self.old deed.now }
        requires dated { IsDated deed.now.unit (next_point self.old) }
        ensures next { (narrative : List Happened) (n : ℕ) → StandsFor self.old deed.now narrative n
            → HasExactly narrative (deed.now.start +ℤ pos n) at.now
            → StandsFor self.new deed.now narrative (suc n) }
        ensures happened { (narrative : List Happened) (n : ℕ) → StandsFor self.old deed.now narrative n
            → HasExactly narrative (deed.now.start +ℤ pos n) at.now
            → (kind : Kind) (i : ℕ) (p : Position) → slice_get deed.now.positions i ≡ Some p
            → has_happened self.new kind (target.Position i)
            ≡ (moment_at deed.now narrative n).seen (Inner kind (target.Position i)) }
        ensures made { IsMadeFor self.new deed.now }
        ensures point { next_point self.new ≡ next_point self.old +ℤ pos 1 }
    {
        let eventful = self.present.evaluate(deed, self.point, at);
        self.queue.pop_through(self.point);
        self.point += 1;
        self.fresh = eventful;
        self.queue_dates();
    }

    /// Evaluates the next point, which is a date of the deed's unit and at which exactly these
    /// happenings stand, in one pass, and counts one step.
    pub fn step_point<L: Ledger>(&mut self, deed: &Deed, at: &[Happening], steps: &mut Steps<L>)
        requires sound { IsSound deed.now }
        requires made { IsMadeFor self.old deed.now }
        requires dated { IsDated deed.now.unit (next_point self.old) }
        ensures next { (narrative : List Happened) (n : ℕ) → StandsFor self.old deed.now narrative n
            → HasExactly narrative (deed.now.start +ℤ pos n) at.now
            → StandsFor self.new deed.now narrative (suc n) }
        ensures happened { (narrative : List Happened) (n : ℕ) → StandsFor self.old deed.now narrative n
            → HasExactly narrative (deed.now.start +ℤ pos n) at.now
            → (kind : Kind) (i : ℕ) (p : Position) → slice_get deed.now.positions i ≡ Some p
            → has_happened self.new kind (target.Position i)
            ≡ (moment_at deed.now narrative n).seen (Inner kind (target.Position i)) }
        ensures made { IsMadeFor self.new deed.now }
        ensures point { next_point self.new ≡ next_point self.old +ℤ pos 1 }
        ensures ticks { steps.new ≡ steps.old + 1 }
    {
        self.evaluate(deed, at);
        steps.tick();
    }

    /// Makes the other stand for all that this one stands for. Both were made for the same deed. It
    /// takes no memory.
    pub fn copy_into(&self, other: &mut Core)
        requires { (deed : ADeed) × IsMadeFor self.now deed × IsMadeFor other.old deed }
        ensures stands { (deed : ADeed) (narrative : List Happened) (n : ℕ)
            → IsMadeFor self.now deed → IsMadeFor other.old deed
            → StandsFor self.now deed narrative n → StandsFor other.new deed narrative n }
        ensures made { (deed : ADeed) → IsMadeFor self.now deed → IsMadeFor other.old deed → IsMadeFor other.new deed }
        ensures point { next_point other.new ≡ next_point self.now }
    {
        self.present.copy_into(&mut other.present);
        self.queue.copy_into(&mut other.queue);
        copy_bits(self.queued.as_slice(), other.queued.as_mut_slice());
        other.point = self.point;
        other.fresh = self.fresh;
    }
}

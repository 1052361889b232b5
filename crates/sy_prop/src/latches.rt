ghost use Rattle.std.specs.Prelude.{◌≡◌, ◌≤ℤ◌, ◌-ℤ◌, nat_abs, Some, IfOk, length, slice_get};
ghost use Rattle.sy_base.specs.Points.{IsDated};
ghost use Rattle.sy_core.specs.declared.deed.Deed.{Deed};
ghost use Rattle.sy_core.specs.declared.date_term.DateTerm.{DateTerm};
ghost use Rattle.sy_core.specs.declared.proposition.Prop.{Prop};
ghost use Rattle.sy_core.specs.Moments.{date_value};
ghost use Rattle.sy_core.specs.Wakes.{dates_of_deed};
ghost use Rattle.sy_core.specs.Propositions.{verdict_at};
ghost use Rattle.sy_core.specs.Soundness.{HasSoundParts};
ghost use Rattle.sy_quiet.specs.Histories.{History, moments, seeing, firing, setting, passing};
ghost use Rattle.sy_atoms.specs.Histories.{first_history};
ghost use Rattle.sy_atoms.specs.Machine.Told.{telling};
ghost use Rattle.sy_prop.specs.declared.roots.Root.{Root};
ghost use Rattle.sy_prop.specs.Machine.Roots.{root_of};
ghost use Rattle.sy_prop.specs.Standing.{IsMadeFor, StandsFor, present_point, prop_at};

use crate::deed::tell_deed;
use crate::make::{add_positions, add_posts};
use crate::node::Node;
use crate::roots::{PositionRoots, Root};
use crate::table::{pass_to, verdict};
use crate::telling::Telling;
use crate::terms::{TermPlace, date_by, term_places};
use std::alloc::Global;
use sy_atoms::News;
use sy_base::{Memory, Point};
use sy_core::{Deed, Kind, StateOf, Target, Verdict, What};

/// What is kept of the past of all propositions of a deed, and the present point.
#[derive(Debug, Drop)]
pub struct Latches {
    pub(crate) point: Point,
    pub(crate) nodes: Vec<Node>,
    /// The nodes of the positions' propositions.
    pub(crate) roots: Vec<PositionRoots>,
    /// The nodes of the postconditions.
    pub(crate) posts: Vec<usize>,
    /// Where the values of the date terms stand.
    pub(crate) places: Vec<TermPlace>,
}

/// Writes the nodes over as many others.
fn copy_nodes(from: &[Node], to: &mut [Node])
    requires { length from.now ≡ length to.old }
    ensures { to.new ≡ from.now }
{
    to.copy_from_slice(from);
}

impl Latches {
    /// Latches for a deed. Their present point is the deed's start, at which nothing was told yet.
    /// They take all their memory here.
    pub fn new(alloc: Global, deed: &Deed) -> Result<Latches, Memory>
        requires { HasSoundParts deed.now }
        ensures made { IfOk result (λ latches. IsMadeFor latches deed.now) }
        ensures point { IfOk result (λ latches. present_point latches ≡ deed.now.start) }
        ensures stands { IfOk result
            (λ latches. StandsFor latches deed.now (first_history deed.now.start)) }
    {
        let mut nodes = Vec::new(alloc);
        let mut roots = Vec::new(alloc);
        let mut posts = Vec::new(alloc);
        add_positions(&mut nodes, &mut roots, deed)?;
        add_posts(&mut nodes, &mut posts, deed)?;
        let places = term_places(alloc, nodes.as_slice())?;
        Ok(Latches {
            point: deed.start,
            nodes,
            roots,
            posts,
            places,
        })
    }

    /// Something is told at the present point.
    fn tell(&mut self, deed: &Deed, news: News)
        requires sound { HasSoundParts deed.now }
        requires made { IsMadeFor self.old deed.now }
        ensures made { IsMadeFor self.new deed.now }
        ensures point { present_point self.new ≡ present_point self.old }
        ensures stands { (h : History) → StandsFor self.old deed.now h
            → StandsFor self.new deed.now (telling news.entry h) }
    {
        let telling = Telling {
            deed,
            point: self.point,
            news,
        };
        tell_deed(self.nodes.as_mut_slice(), &telling);
    }

    /// This stands among what happens at the present point. Asks that the latches were made for the
    /// deed.
    pub fn see(&mut self, deed: &Deed, what: &What)
        requires sound { HasSoundParts deed.now }
        requires made { IsMadeFor self.old deed.now }
        ensures made { IsMadeFor self.new deed.now }
        ensures point { present_point self.new ≡ present_point self.old }
        ensures stands { (h : History) → StandsFor self.old deed.now h
            → StandsFor self.new deed.now (seeing what.now h) }
    {
        self.tell(deed, News::Seen(what));
    }

    /// The internal event happens at the present point. Asks that the latches were made for the
    /// deed.
    pub fn fire(&mut self, deed: &Deed, kind: Kind, target: Target)
        requires sound { HasSoundParts deed.now }
        requires made { IsMadeFor self.old deed.now }
        ensures made { IsMadeFor self.new deed.now }
        ensures point { present_point self.new ≡ present_point self.old }
        ensures stands { (h : History) → StandsFor self.old deed.now h
            → StandsFor self.new deed.now (firing kind target h) }
    {
        self.tell(deed, News::Fired(kind, target));
    }

    /// The target is in the state from the point after the present one on. Asks that the latches were
    /// made for the deed.
    pub fn set_state(&mut self, deed: &Deed, target: Target, state: StateOf)
        requires sound { HasSoundParts deed.now }
        requires made { IsMadeFor self.old deed.now }
        ensures made { IsMadeFor self.new deed.now }
        ensures point { present_point self.new ≡ present_point self.old }
        ensures stands { (h : History) → StandsFor self.old deed.now h
            → StandsFor self.new deed.now (setting target state h) }
    {
        self.tell(deed, News::Set(target, state));
    }

    /// Goes on to a point; at those passed over nothing happens, and the states are those set. Asks
    /// that the point isn't below the present one and is a date, and that the latches were made for
    /// the deed.
    pub fn set_point(&mut self, deed: &Deed, point: Point)
        requires made { IsMadeFor self.old deed.now }
        requires later { present_point self.old ≤ℤ point }
        requires dated { IsDated deed.now.unit point }
        ensures made { IsMadeFor self.new deed.now }
        ensures point { present_point self.new ≡ point }
        ensures stands { (h : History) → StandsFor self.old deed.now h
            → StandsFor self.new deed.now (passing (nat_abs (point -ℤ present_point self.old)) h) }
    {
        if self.point < point {
            pass_to(self.nodes.as_mut_slice(), self.point, self.point + 1, point);
            self.point = point;
        }
    }

    /// The node of the proposition at a place of the deed that the latches were made for.
    pub fn root(&self, place: Root) -> usize
        ensures { (deed : Deed) (h : History) → StandsFor self.now deed h
            → result ≡ root_of deed place }
    {
        match place {
            Root::Trigger(position) => match self.roots.get(position as usize) {
                Some(roots) => roots.trigger,
                None => 0,
            },
            Root::Antecedent(position) => match self.roots.get(position as usize) {
                Some(roots) => roots.antecedent,
                None => 0,
            },
            Root::Consequent(position) => match self.roots.get(position as usize) {
                Some(roots) => roots.consequent,
                None => 0,
            },
            Root::Post(number) => match self.posts.get(number as usize) {
                Some(root) => *root,
                None => 0,
            },
        }
    }

    /// The verdict at the present point of the proposition with this node, which is one that `root`
    /// gives.
    pub fn verdict(&self, node: usize) -> Verdict
        ensures { (deed : Deed) (h : History) (place : Root) (prop : Prop)
            → StandsFor self.now deed h
            → prop_at deed place ≡ Some prop
            → node ≡ root_of deed place
            → result ≡ verdict_at deed.unit h.now h.before prop }
    {
        verdict(self.nodes.as_slice(), self.point, node)
    }

    /// How many date terms the deed has. They are numbered from 0 in the order of the positions, each
    /// with trigger, antecedent and consequent, then the postconditions, and within each from left to
    /// right.
    pub fn terms(&self) -> usize
        ensures { (deed : Deed) (h : History) → StandsFor self.now deed h
            → result ≡ length (dates_of_deed deed) }
    {
        self.places.as_slice().len()
    }

    /// The value at the present point of the date term with this number, if it has one yet.
    pub fn due(&self, term: usize) -> Option<Point>
        ensures { (deed : Deed) (h : History) (date : DateTerm) → StandsFor self.now deed h
            → slice_get (dates_of_deed deed) term ≡ Some date
            → result ≡ date_value deed.unit date (moments h) }
    {
        date_by(self.nodes.as_slice(), self.places.as_slice(), term)
    }

    /// Makes other latches that were made for the same deed the same as these. It takes no memory.
    pub fn copy_into(&self, other: &mut Latches)
        requires made { (deed : Deed) × IsMadeFor self.now deed × IsMadeFor other.old deed }
        ensures made { (deed : Deed) → IsMadeFor self.now deed → IsMadeFor other.new deed }
        ensures point { present_point other.new ≡ present_point self.now }
        ensures stands { (deed : Deed) (h : History) → StandsFor self.now deed h
            → StandsFor other.new deed h }
    {
        copy_nodes(self.nodes.as_slice(), other.nodes.as_mut_slice());
        other.point = self.point;
    }
}

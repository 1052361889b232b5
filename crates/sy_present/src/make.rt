ghost use Rattle.std.specs.Prelude.{◌≡◌, IfOk, ℕ, List, map, length};
ghost use Rattle.sy_core.specs.declared.deed.Deed.{Deed as ADeed};
ghost use Rattle.sy_core.specs.declared.happening.Happening.{Happening};
ghost use Rattle.sy_core.specs.Soundness.{IsSound};
ghost use Rattle.sy_present.specs.Standing.{IsMadeFor, StandsFor, last_point};
ghost use Rattle.sy_present.specs.Machine.Fresh.{fresh_place};

use crate::done::Done;
use crate::nodes::{count_acting, nodes_in_order};
use crate::place::Place;
use crate::present::Present;
use std::alloc::Global;
use sy_base::Memory;
use sy_core::{Deed, Position, StateOf};
use sy_machines::Fired;
use sy_prop::Latches;

/// A place for each position, to which nothing happened yet.
fn fresh_places(alloc: Global, positions: &[Position]) -> Result<Vec<Place>, Memory>
    ensures { IfOk result (λ places. places.items ≡ map fresh_place positions.now) }
{
    let mut places = Vec::new(alloc);
    for position in positions {
        places.push(Place {
            form: position.form,
            state: StateOf::Null,
            violated: None,
            exerted: None,
            asked: false,
            done: Done::NONE,
            fired: Fired::NONE,
        })?;
    }
    Ok(places)
}

/// Writes the places over as many others.
fn copy_places(from: &[Place], to: &mut [Place])
    requires { length from.now ≡ length to.old }
    ensures { to.new ≡ from.now }
{
    to.copy_from_slice(from);
}

impl Present {
    /// What is kept of a deed at its start, before anything happened. All memory is taken here.
    pub fn new(alloc: Global, deed: &Deed) -> Result<Present, Memory>
        requires { IsSound deed.now }
        ensures start { IfOk result (λ present. (narrative : List Happening) → StandsFor present deed.now narrative 0) }
        ensures made { IfOk result (λ present. IsMadeFor present deed.now) }
        ensures point { IfOk result (λ present. last_point present ≡ deed.now.start) }
    {
        let latches = Latches::new(alloc, deed)?;
        let places = fresh_places(alloc, deed.positions.items())?;
        let order = nodes_in_order(alloc, deed)?;
        let acting = count_acting(deed, order.as_slice());
        Ok(Present {
            latches,
            contract: StateOf::InEffect,
            contract_done: Done::NONE,
            contract_fired: Fired::NONE,
            places,
            eventful: false,
            order,
            acting,
        })
    }

    /// Makes the other stand for all that this one stands for. Both were made for the same deed. It
    /// takes no memory.
    pub fn copy_into(&self, other: &mut Present)
        requires { (deed : ADeed) × IsMadeFor self.now deed × IsMadeFor other.old deed }
        ensures stands { (deed : ADeed) (narrative : List Happening) (n : ℕ)
            → IsMadeFor self.now deed → IsMadeFor other.old deed
            → StandsFor self.now deed narrative n → StandsFor other.new deed narrative n }
        ensures made { (deed : ADeed) → IsMadeFor self.now deed → IsMadeFor other.old deed → IsMadeFor other.new deed }
        ensures point { last_point other.new ≡ last_point self.now }
    {
        self.latches.copy_into(&mut other.latches);
        copy_places(self.places.as_slice(), other.places.as_mut_slice());
        other.contract = self.contract;
        other.contract_done = self.contract_done;
        other.contract_fired = self.contract_fired;
        other.eventful = self.eventful;
    }
}

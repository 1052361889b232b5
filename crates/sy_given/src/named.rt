ghost use Rattle.std.specs.Prelude.{◌≡◌, [], ◌++◌, map, IfOk, OnOk, option_copied};
ghost use Rattle.std.specs.List.{find};
ghost use Rattle.sy_domain.specs.Names.{repeats};
ghost use Rattle.sy_given.specs.Machine.Places.{IsIndexOf, is_named};

use indexmap::{IndexMap, IndexSet};
use std::alloc::Global;
use sy_base::{List, Memory, Text};
use sy_binding::{FieldTree, GivenTree};
use sy_domain::Failure;
use sy_lex::Written;

/// What gives something to a name.
pub(crate) trait Named {
    ghost use Rattle.sy_lex.specs.declared.written.Written.{Written as Token};

    /// The name.
    ghost own_name: { Self → Token };

    fn name(&self) -> &Written
        ensures { result.now ≡ own_name self.now };
}

impl Named for GivenTree {
    ghost own_name = { λ g. g.name };

    fn name(&self) -> &Written {
        &self.name
    }
}

impl Named for FieldTree {
    ghost own_name = { λ f. f.name };

    fn name(&self) -> &Written {
        &self.name
    }
}

/// Finds the names among some things that an earlier one of them has already.
pub(crate) fn repeat_into<T: Named>(
    alloc: Global,
    things: &[T],
    out: &mut List<Failure>,
) -> Result<(), Memory>
    ensures { OnOk result (out.new ≡ out.old ++ repeats [] (map T.own_name things.now)) }
{
    let mut seen: IndexSet<Text> = IndexSet::new(alloc);
    'thing: for thing in things {
        let name = thing.name();
        if !seen.insert(name.text.copy(alloc)?)? {
            out.push(Failure::at(alloc, name)?)?;
        }
    }
    Ok(())
}

/// Where each name stands first among some things.
pub(crate) fn first_places<T: Named>(
    alloc: Global,
    things: &[T],
) -> Result<IndexMap<Text, usize>, Memory>
    ensures { IfOk result (λ places. IsIndexOf T.own_name things.now places.entries) }
{
    let mut places = IndexMap::new(alloc);
    let mut i = things.len();
    'left: while i > 0 {
        i -= 1;
        places.insert(things[i].name().text.copy(alloc)?, i)?;
    }
    Ok(places)
}

/// The first of some things that has a name.
pub(crate) fn first_named<'a, T: Named>(
    things: &'a [T],
    places: &IndexMap<Text, usize>,
    name: &Text,
) -> Option<&'a T>
    requires { IsIndexOf T.own_name things.now places.now.entries }
    ensures { option_copied result ≡ find (is_named T.own_name name.now) things.now }
{
    match places.get(name) {
        Some(place) => things.get(*place),
        None => None,
    }
}

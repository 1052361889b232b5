ghost use Rattle.std.specs.Prelude.{◌≡◌, Some, None, MatchOption, slice_get};
ghost use Rattle.sy_literal.specs.Values.{date_point};
ghost use Rattle.sy_log.specs.Entries as entries;
ghost use Rattle.sy_log.specs.Entries.{HasFewNames};
ghost use Rattle.sy_log.specs.Machine.Answering.{Tells};

use crate::fault::LineFault;
use crate::names::place_named;
use crate::read::Entry;
use crate::tree::{LineTree, WhatTree};
use crate::values::values_given;
use std::alloc::Global;
use sy_base::{FaultName, Point, Text};
use sy_binding::FieldTree;
use sy_core::{AttrDecl, Deed, Happening, What};
use sy_literal::date;

/// The attributes of the event at a place.
fn attributes_of(deed: &Deed, event: u32) -> &[AttrDecl]
    ensures { result.now ≡ entries.attributes_of (slice_get deed.now.events event) }
{
    match deed.events.items().get(event as usize) {
        Some(event) => event.attrs.items(),
        None => &[],
    }
}

/// The event with a name, with the values that are given to its attributes.
fn event_told(
    alloc: Global,
    deed: &Deed,
    name: &Text,
    fields: &[FieldTree],
) -> Result<What, LineFault>
    requires { HasFewNames deed.now }
    ensures { Tells result (entries.event_told deed.now fields.now (entries.event_named name.now deed.now.events)) }
{
    let Some(event) = place_named(name, deed.events.items()) else {
        return Err(LineFault::Fault(FaultName::UnknownName));
    };
    match values_given(alloc, deed, attributes_of(deed, event), fields)? {
        Some(values) => Ok(What::Event(event, values)),
        None => Err(LineFault::Fault(FaultName::WrongValues)),
    }
}

/// What is told to happen.
fn what_told(alloc: Global, deed: &Deed, what: &WhatTree) -> Result<What, LineFault>
    requires { HasFewNames deed.now }
    ensures { Tells result (entries.what_told deed.now what.now) }
{
    match what {
        WhatTree::Happens(name, fields) => event_told(alloc, deed, &name.text, fields.items()),
        WhatTree::Exert(name) => match place_named(&name.text, deed.positions.items()) {
            Some(power) => Ok(What::Exert(power)),
            None => Err(LineFault::Fault(FaultName::UnknownName)),
        },
    }
}

/// A date without a fault.
fn date_told(deed: &Deed, text: &Text) -> Result<Point, LineFault>
    ensures { Tells result (entries.date_told (date_point deed.now.unit text.now)) }
{
    match date(deed.unit, text) {
        Some(point) => Ok(point),
        None => Err(LineFault::Fault(FaultName::BadDate)),
    }
}

/// A date without a fault that isn't before start.
fn from_start(deed: &Deed, text: &Text) -> Result<Point, LineFault>
    ensures { Tells result (entries.from_start deed.now.start (entries.date_told (date_point deed.now.unit text.now))) }
{
    let point = date_told(deed, text)?;
    if point < deed.start {
        return Err(LineFault::Fault(FaultName::TooEarly));
    }
    Ok(point)
}

/// What a line says, or its first fault.
pub(crate) fn entry_of(alloc: Global, deed: &Deed, line: &LineTree) -> Result<Entry, LineFault>
    requires { HasFewNames deed.now }
    ensures { Tells result (entries.entry_of deed.now line.now) }
{
    match line {
        LineTree::At(date, what) => {
            let what = what_told(alloc, deed, what)?;
            let point = from_start(deed, &date.text)?;
            Ok(Entry::Noted(Happening { point, what }))
        }
        LineTree::Report(date) => Ok(Entry::Report(date_told(deed, &date.text)?)),
    }
}

ghost use Rattle.std.specs.Prelude.{◌≡◌, ◌++◌, IfOk, OnOk};
ghost use Rattle.sy_core.specs.Mentions.{named_by_event, named_by_date, names_of};

use std::alloc::Global;
use sy_base::{List, Memory};
use sy_core::{Base, DateTerm, Ev, Prop, Target};
use sy_words::Kind;

/// An internal event: its kind, and what it is about.
pub type InternalEvent = (Kind, Target);

/// The internal events that a proposition names, anywhere in it, one for each time that it names
/// one, from left to right.
pub fn names_of(alloc: Global, prop: &Prop) -> Result<List<InternalEvent>, Memory>
    ensures { IfOk result (λ names. names ≡ names_of prop.now) }
{
    let mut names = List::new(alloc);
    add_names(&mut names, prop)?;
    Ok(names)
}

/// Adds the internal events that a proposition names.
fn add_names(names: &mut List<InternalEvent>, prop: &Prop) -> Result<(), Memory>
    ensures { OnOk result (names.new ≡ names.old ++ names_of prop.now) }
{
    match prop {
        Prop::Not(part) => add_names(names, part.get()),
        Prop::All(parts) | Prop::Any(parts) => {
            for part in parts.as_slice() {
                add_names(names, part)?;
            }
            Ok(())
        }
        Prop::Happens(ev) => add_event(names, ev),
        Prop::Before(ev, date) | Prop::After(ev, date) => {
            add_event(names, ev)?;
            add_date(names, date)
        }
        Prop::Within(ev, from, to) => {
            add_event(names, ev)?;
            add_date(names, from)?;
            add_date(names, to)
        }
        Prop::Occurs(_, from, to) => {
            add_date(names, from)?;
            add_date(names, to)
        }
        Prop::Const(_) | Prop::Holds(_) => Ok(()),
    }
}

/// Adds the event, if it is internal.
fn add_event(names: &mut List<InternalEvent>, ev: &Ev) -> Result<(), Memory>
    ensures { OnOk result (names.new ≡ names.old ++ named_by_event ev.now) }
{
    match ev {
        Ev::Inner(kind, target) => names.push((*kind, *target)),
        Ev::Outer(_, _) => Ok(()),
    }
}

/// Adds the internal event that a date term begins with, if it does.
fn add_date(names: &mut List<InternalEvent>, term: &DateTerm) -> Result<(), Memory>
    ensures { OnOk result (names.new ≡ names.old ++ named_by_date term.now) }
{
    match &term.base {
        Base::First(ev) => add_event(names, ev),
        Base::Fixed(_) => Ok(()),
    }
}

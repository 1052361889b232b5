ghost use Rattle.std.specs.Prelude.{◌≡◌};
ghost use Rattle.std.specs.List.{list_any};
ghost use Rattle.sy_core.specs.Mentions.{named_by_event, named_by_base, named_by_date, names_of, has_holds, is_violation_of};
ghost use Rattle.sy_core.specs.Conditions.{is_remedy};

use crate::date_term::{Base, DateTerm};
use crate::event::Ev;
use crate::goal::{is_obligation, is_same_target};
use crate::kind::Target;
use crate::position::Position;
use crate::proposition::Prop;
use sy_words::Kind;

/// The event is the violation of the target.
fn is_violation(ev: &Ev, violated: Target) -> bool
    ensures { result ≡ list_any (is_violation_of violated) (named_by_event ev.now) }
{
    match ev {
        Ev::Inner(Kind::Violated, target) => is_same_target(*target, violated),
        _ => false,
    }
}

/// The date term begins with the violation of the target.
fn is_date_of_violation(term: &DateTerm, violated: Target) -> bool
    ensures { result ≡ list_any (is_violation_of violated) (named_by_date term.now) }
{
    match &term.base {
        Base::First(ev) => is_violation(ev, violated),
        Base::Fixed(_) => false,
    }
}

/// The proposition names the violation of the target, anywhere in it.
fn names_violation(prop: &Prop, violated: Target) -> bool
    ensures { result ≡ list_any (is_violation_of violated) (names_of prop.now) }
{
    match prop {
        Prop::Not(part) => names_violation(part.get(), violated),
        Prop::All(parts) | Prop::Any(parts) => {
            for part in parts.as_slice() {
                if names_violation(part, violated) {
                    return true;
                }
            }
            false
        }
        Prop::Happens(ev) => is_violation(ev, violated),
        Prop::Before(ev, date) | Prop::After(ev, date) => {
            is_violation(ev, violated) || is_date_of_violation(date, violated)
        }
        Prop::Within(ev, from, to) => {
            is_violation(ev, violated)
                || is_date_of_violation(from, violated)
                || is_date_of_violation(to, violated)
        }
        Prop::Occurs(_, from, to) => {
            is_date_of_violation(from, violated) || is_date_of_violation(to, violated)
        }
        Prop::Const(_) | Prop::Holds(_) => false,
    }
}

/// The position is a remedy of the violated obligation: an obligation whose trigger names its violation.
pub fn is_remedy(violated: Target, position: &Position) -> bool
    ensures { result ≡ is_remedy violated position.now }
{
    is_obligation(position.form) && names_violation(&position.trigger, violated)
}

/// The proposition has a `Holds` somewhere in it.
pub fn has_holds(prop: &Prop) -> bool
    ensures { result ≡ has_holds prop.now }
{
    match prop {
        Prop::Not(part) => has_holds(part.get()),
        Prop::All(parts) | Prop::Any(parts) => {
            for part in parts.as_slice() {
                if has_holds(part) {
                    return true;
                }
            }
            false
        }
        Prop::Holds(_) => true,
        _ => false,
    }
}

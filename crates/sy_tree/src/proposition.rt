ghost use Rattle.std.specs.Prelude.{◌≡◌};
ghost use Rattle.sy_tree.specs.Propositions as grammar;

use crate::{DateTree, RhsTree, TargetTree, TermTree};
use sqlite_items::{Boxed, Items};
use sy_base::{List, Place};
use sy_lex::Written;
use sy_words::{Cmp, Kind};

/// The first token of a proposition, without the brackets round it; and where the outermost of
/// these stands, if there are any.
#[derive(Debug, Drop)]
pub struct First {
    pub token: Written,
    pub bracket: Option<Place>,
}

/// A proposition. Brackets round a whole one make no node, and neither do an `and` or an `or` of
/// one part.
#[derive(Debug, Drop)]
pub enum PropTree {
    Const(bool, First),
    Not(Boxed<PropTree>, First),
    /// An `and` of two parts or more.
    All(Items<PropTree>, First),
    /// An `or` of two parts or more.
    Any(Items<PropTree>, First),
    Compare(TermTree, CmpTree, RhsTree, First),
    Happens(EventTree, First),
    Before(EventTree, DateTree, First),
    After(EventTree, DateTree, First),
    Within(EventTree, DateTree, DateTree, First),
    Occurs(SituationTree, DateTree, DateTree, First),
    Holds(SituationTree, First),
}

/// A sign that compares.
#[derive(Debug, Drop)]
pub struct CmpTree {
    pub cmp: Cmp,
    pub place: Place,
}

/// An event.
#[derive(Debug, Drop)]
pub enum EventTree {
    /// A declared one, and its guards: none where the brackets are left out.
    Declared(Written, List<GuardTree>),
    /// An internal one: its kind, where the kind's word stands, and what it is about.
    Internal(Kind, Place, TargetTree),
}

/// A comparison of an event's attribute.
#[derive(Debug, Drop)]
pub struct GuardTree {
    pub name: Written,
    pub cmp: CmpTree,
    pub value: RhsTree,
}

/// That a target is in a state, or isn't.
#[derive(Debug, Drop)]
pub struct SituationTree {
    /// Where the word `state` stands.
    pub place: Place,
    pub target: TargetTree,
    /// Whether it is to be in the state, or not to be.
    pub equal: bool,
    pub state: Written,
}

impl First {
    /// The same, with a bracket that stands there.
    fn bracketed(self, place: Place) -> First
        ensures { result ≡ grammar.bracketed place self }
    {
        First {
            token: self.token,
            bracket: Some(place),
        }
    }
}

impl PropTree {
    /// The proposition in brackets, the first of which stands there.
    pub fn in_brackets(self, place: Place) -> PropTree
        ensures { result ≡ grammar.in_brackets place self }
    {
        match self {
            PropTree::Const(value, first) => PropTree::Const(value, first.bracketed(place)),
            PropTree::Not(part, first) => PropTree::Not(part, first.bracketed(place)),
            PropTree::All(parts, first) => PropTree::All(parts, first.bracketed(place)),
            PropTree::Any(parts, first) => PropTree::Any(parts, first.bracketed(place)),
            PropTree::Compare(left, cmp, right, first) => {
                PropTree::Compare(left, cmp, right, first.bracketed(place))
            }
            PropTree::Happens(event, first) => PropTree::Happens(event, first.bracketed(place)),
            PropTree::Before(event, date, first) => {
                PropTree::Before(event, date, first.bracketed(place))
            }
            PropTree::After(event, date, first) => {
                PropTree::After(event, date, first.bracketed(place))
            }
            PropTree::Within(event, from, to, first) => {
                PropTree::Within(event, from, to, first.bracketed(place))
            }
            PropTree::Occurs(situation, from, to, first) => {
                PropTree::Occurs(situation, from, to, first.bracketed(place))
            }
            PropTree::Holds(situation, first) => PropTree::Holds(situation, first.bracketed(place)),
        }
    }
}

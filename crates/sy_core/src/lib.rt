//! A deed, which is a contract with its parameters bound, and what happens under it. The rules by
//! which states follow from happenings are definitions in `specs/`.
#![tactic(auto)]

mod date_term;
mod deed;
mod event;
mod goal;
mod happening;
mod kind;
mod matching;
mod position;
mod proposition;
mod remedy;
mod rounds_law;
mod soundness_law;
mod state;
mod table;
mod value;
mod verdict;

pub use date_term::{Base, DateTerm};
pub use deed::{AttrDecl, Choices, Deed, EventDecl};
pub use event::{Ev, Guard};
pub use goal::{
    acts_on_contract, is_act, is_awaited, is_obligation, is_power, is_same_target, is_settled,
    survives,
};
pub use happening::{Happening, What};
pub use kind::{Target, contract_kinds, kinds_of};
pub use matching::matches;
pub use position::{Act, Goal, Position};
pub use proposition::{Prop, Situation};
pub use remedy::{has_holds, is_remedy};
pub use rounds_law::rounds_settle;
pub use soundness_law::soundness_bounds;
pub use sqlite_items::{Boxed, Items};
pub use state::{StateOf, copy_states, is_same_state, state_named, state_word};
pub use sy_words::{Cmp, Form, Kind, Verb};
pub use table::{Mark, Table, Verdict};
pub use value::{Value, ValueKind};
pub use verdict::{greater, is_false, is_true, lesser, opposite};

//! Specifications: their trees, the rules that say what tokens spell them, and what reads them.
#![tactic(auto)]

mod contract;
mod domain;
mod headings;
mod parse;
mod position;
mod reading;

pub use contract::{ContractTree, DeclTree, GiveTree, ParamTree, SpecTree, UnitTree};
pub use domain::{AttrTree, BaseTree, DomainTree, EnumTree, TypeTree};
pub use parse::spec;
pub use position::{ActTree, ObligTree, PowerTree, VerbTree};

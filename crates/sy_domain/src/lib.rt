//! The names and types of a specification, and the checks of its domain part.
#![tactic(auto)]

mod attributes;
mod chains;
mod checks;
mod failure;
mod meaning;
mod members;
mod names;
mod type_names;
mod types;

pub use checks::ontology;
pub use failure::{Failure, fail_unless, first, refusal};
pub use meaning::{Meaning, Sort};
pub use names::{HasName, Names, repeat_into};
pub use types::{Member, Ontology, TypeKind};

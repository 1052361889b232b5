use std::alloc::{AllocError, Global};
use std::test::Fail;
use sy_base::{Refused, Text};
use sy_report::refusal_text;

/// A specification and a binding by the parts in which rows differ, and what the refusal says behind
/// its first words; nothing where they are accepted.
#[derive(Clone, Copy)]
pub struct Row {
    /// Line 4, behind a role `Z` and an event `E` with the `Env` attribute `n: Number`.
    pub types: &'static str,
    /// The parameters, from column 12 of line 6 on.
    pub parameters: &'static str,
    /// The unit's word.
    pub unit: &'static str,
    /// Line 9, behind the parties `a` and `b` and the event `e`.
    pub declarations: &'static str,
    /// Line 10.
    pub sections: &'static str,
    /// The start, from column 7 of line 1 of the binding on.
    pub start: &'static str,
    /// Line 2 of the binding.
    pub bound: &'static str,
    pub told: &'static str,
}

pub const BASE: Row = Row {
    types: "",
    parameters: "",
    unit: "Day",
    declarations: "",
    sections: "",
    start: "2024-03-01",
    bound: "",
    told: "",
};

/// The text of the specification of a row.
pub fn specification_of(alloc: Global, row: &Row) -> Result<String, AllocError> {
    format!(in alloc;
        "Domain d
Z isA Role;
E isAn Event with Env n: Number;
{}
endDomain
Contract C({}) unit {}
Declarations
a: Z; b: Z; e: E;
{}
{}
endContract
",
        row.types, row.parameters, row.unit, row.declarations, row.sections
    )
}

/// The text of the binding of a row.
pub fn binding_of(alloc: Global, row: &Row) -> Result<String, AllocError> {
    format!(in alloc; "start {};\n{}\n", row.start, row.bound)
}

/// The line of a refusal.
pub fn line_of(alloc: Global, why: &Refused) -> Result<Text, Fail> {
    match why {
        Refused::Refusal(refusal) => Ok(refusal_text(alloc, refusal)?),
        Refused::Memory => Err(Fail::from("memory")),
    }
}

/// The line that is wanted, which begins so; or nothing.
pub fn wanted(alloc: Global, begin: &str, told: &str) -> Result<String, AllocError> {
    match told {
        "" => Ok(String::new(alloc)),
        words => format!(in alloc; "{begin} {words}\n"),
    }
}

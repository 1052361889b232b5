use sy_base::List;
use sy_binding::FieldTree;
use sy_lex::Written;

/// What is told to happen.
#[derive(Debug, Drop)]
pub(crate) enum WhatTree {
    /// The event with a name, and the values of its attributes.
    Happens(Written, List<FieldTree>),
    /// The exertion of the power with a name.
    Exert(Written),
}

/// A line of a log that isn't blank.
#[derive(Debug, Drop)]
pub(crate) enum LineTree {
    /// A date, and what is told to happen there.
    At(Written, WhatTree),
    /// The date whose report is asked for.
    Report(Written),
}

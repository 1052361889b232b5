use sy_words::Form;

/// What the values of a parameter or of an attribute are, and what a declaration is.
#[derive(Clone, Copy, Debug, PartialEq, Eq)]
pub enum Sort {
    Number,
    Text,
    Boolean,
    Date,
    /// The type with this number among those of the domain part, counted from 0.
    Declared(usize),
}

/// What a name of the shared space stands for. Numbers count from 0, in the order of the text.
#[derive(Clone, Copy, Debug, PartialEq, Eq)]
pub enum Meaning {
    Type(Sort),
    /// A constant: the number of its enumeration among the types, and its own number there.
    Constant(usize, usize),
    Parameter(usize),
    Declaration(usize),
    /// A position: its form, and its number among those of its form.
    Position(Form, usize),
}

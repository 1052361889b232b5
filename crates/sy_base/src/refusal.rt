ghost use Rattle.std.specs.Prelude.{◌≡◌, Some};
ghost use Rattle.sy_base.specs.declared.refusal.Refused.TheVariants.{Memory as Wanting};
ghost use Rattle.sy_base.specs.Refusals.{fault_word, file_word};

use crate::{Memory, Text};
use std::fmt;
use thiserror::Error;

/// The text in which a refusal's cause stands.
#[derive(Clone, Copy, Debug, PartialEq, Eq)]
pub enum FileKind {
    Spec,
    Bind,
    Props,
    Log,
    Cert,
    Run,
    Words,
}

impl fmt::Display for FileKind {
    ghost output = { λ file. Some (file_word file) };

    fn fmt<W: fmt::Write>(&self, f: &mut fmt::Formatter<W>) -> fmt::Result {
        f.write_str(match self {
            FileKind::Spec => "spec",
            FileKind::Bind => "bind",
            FileKind::Props => "props",
            FileKind::Log => "log",
            FileKind::Cert => "cert",
            FileKind::Run => "run",
            FileKind::Words => "words",
        })
    }
}

/// A place in a text. Lines and columns are counted from 1, columns in bytes. Column 0 stands for
/// the whole line.
#[derive(Clone, Copy, Debug, PartialEq, Eq)]
pub struct Place {
    pub line: u64,
    pub column: u64,
}

/// The name of what a text was refused for.
#[derive(Clone, Copy, Debug, PartialEq, Eq)]
pub enum FaultName {
    LexFault,
    SyntaxFault,
    TooBig,
    DuplicateName,
    UnknownName,
    CyclicIsA,
    WrongType,
    NumberOutOfRange,
    BadDate,
    BadUnit,
    SituationInConsequent,
    TooMany,
    InstantCycle,
    DuplicateParam,
    ExtraParam,
    MissingParam,
    WrongParamType,
    PreconditionFalse,
    ConstraintFalse,
    MissingDomain,
    TooManyValues,
    BadBound,
    BadToken,
    WrongValues,
    TooEarly,
    TooLong,
    TooManyLines,
    OtherProperty,
    OutsideBound,
    OutsideValues,
    TooLarge,
}

impl fmt::Display for FaultName {
    ghost output = { λ name. Some (fault_word name) };

    fn fmt<W: fmt::Write>(&self, f: &mut fmt::Formatter<W>) -> fmt::Result {
        f.write_str(match self {
            FaultName::LexFault => "LexFault",
            FaultName::SyntaxFault => "SyntaxFault",
            FaultName::TooBig => "TooBig",
            FaultName::DuplicateName => "DuplicateName",
            FaultName::UnknownName => "UnknownName",
            FaultName::CyclicIsA => "CyclicIsA",
            FaultName::WrongType => "WrongType",
            FaultName::NumberOutOfRange => "NumberOutOfRange",
            FaultName::BadDate => "BadDate",
            FaultName::BadUnit => "BadUnit",
            FaultName::SituationInConsequent => "SituationInConsequent",
            FaultName::TooMany => "TooMany",
            FaultName::InstantCycle => "InstantCycle",
            FaultName::DuplicateParam => "DuplicateParam",
            FaultName::ExtraParam => "ExtraParam",
            FaultName::MissingParam => "MissingParam",
            FaultName::WrongParamType => "WrongParamType",
            FaultName::PreconditionFalse => "PreconditionFalse",
            FaultName::ConstraintFalse => "ConstraintFalse",
            FaultName::MissingDomain => "MissingDomain",
            FaultName::TooManyValues => "TooManyValues",
            FaultName::BadBound => "BadBound",
            FaultName::BadToken => "BadToken",
            FaultName::WrongValues => "WrongValues",
            FaultName::TooEarly => "TooEarly",
            FaultName::TooLong => "TooLong",
            FaultName::TooManyLines => "TooManyLines",
            FaultName::OtherProperty => "OtherProperty",
            FaultName::OutsideBound => "OutsideBound",
            FaultName::OutsideValues => "OutsideValues",
            FaultName::TooLarge => "TooLarge",
        })
    }
}

/// Why a text is refused, and where.
#[derive(Debug, Drop)]
pub struct Refusal {
    pub file: FileKind,
    pub place: Option<Place>,
    pub name: FaultName,
    /// The words after the name, or no byte where there are none.
    pub words: Text,
}

/// Why a text gave no value.
#[derive(Debug, Drop, Error)]
pub enum Refused {
    #[error("refused {} {}", .0.file, .0.name)]
    Refusal(Refusal),
    #[error("out of memory")]
    Memory,
}

impl From<Memory> for Refused {
    ghost from_gives = { λ _ refused. refused ≡ Wanting };

    fn from(_: Memory) -> Refused {
        Refused::Memory
    }
}

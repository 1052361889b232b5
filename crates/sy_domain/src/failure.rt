ghost use Rattle.std.specs.Prelude.{◌≡◌, ◌++◌, IfOk, OnOk, option_copied};
ghost use Rattle.sy_domain.specs.Failures as fault;
ghost use Rattle.sy_domain.specs.Failures.{at, refusal_of, is_before, unless};

use std::alloc::Global;
use sy_base::{FaultName, FileKind, List, Memory, Place, Refusal, Text};
use sy_lex::Written;

/// Where a check of a text fails, and the words of its refusal.
#[derive(Debug, Drop)]
pub struct Failure {
    /// None where it stands at no place of the text.
    pub place: Option<Place>,
    pub words: Text,
}

impl Failure {
    /// The failure at a token.
    pub fn at(alloc: Global, token: &Written) -> Result<Failure, Memory>
        ensures { IfOk result (λ failure. failure ≡ at token.now) }
    {
        Ok(Failure {
            place: Some(token.place),
            words: token.text.copy(alloc)?,
        })
    }
}

/// Puts the failure at a token behind the others, unless all is well.
pub fn fail_unless(
    alloc: Global,
    well: bool,
    token: &Written,
    out: &mut List<Failure>,
) -> Result<(), Memory>
    ensures { OnOk result (out.new ≡ out.old ++ unless well token.now) }
{
    if !well {
        out.push(Failure::at(alloc, token)?)?;
    }
    Ok(())
}

/// Whether a place stands before another.
fn is_before(a: Place, b: Place) -> bool
    ensures { result ≡ is_before a b }
{
    a.line < b.line || a.line == b.line && a.column < b.column
}

/// Whether a failure stands before another one. None stands before one without a place.
fn stands_before(a: &Failure, b: &Failure) -> bool
    ensures { result ≡ fault.stands_before a.now.place b.now.place }
{
    match (a.place, b.place) {
        (Some(a), Some(b)) => is_before(a, b),
        _ => false,
    }
}

/// The failure that stands first in the source.
pub fn first(failures: &[Failure]) -> Option<&Failure>
    ensures { option_copied result ≡ fault.first failures.now }
{
    let mut found: Option<&Failure> = None;
    'failure: for failure in failures {
        found = match found {
            Some(other) if !stands_before(failure, other) => Some(other),
            _ => Some(failure),
        };
    }
    found
}

/// The refusal of a text for the first of the failures of a check, if there are any.
pub fn refusal(
    alloc: Global,
    file: FileKind,
    name: FaultName,
    failures: &[Failure],
) -> Result<Option<Refusal>, Memory>
    ensures { IfOk result (λ r. r ≡ refusal_of (record { file = file; name = name; failures = failures.now })) }
{
    match first(failures) {
        Some(failure) => Ok(Some(Refusal {
            file,
            place: failure.place,
            name,
            words: failure.words.copy(alloc)?,
        })),
        None => Ok(None),
    }
}

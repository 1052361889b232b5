ghost use Rattle.std.specs.Prelude.{◌≡◌};
ghost use Rattle.sy_core.specs.Propositions.{opposite, lesser, greater, is_true, is_false};

use crate::table::Verdict;

/// Not.
pub fn opposite(verdict: Verdict) -> Verdict
    ensures { result ≡ opposite verdict }
{
    match verdict {
        Verdict::False => Verdict::True,
        Verdict::Open => Verdict::Open,
        Verdict::True => Verdict::False,
    }
}

/// The lesser of two verdicts, where False is less than Open and Open than True.
pub fn lesser(a: Verdict, b: Verdict) -> Verdict
    ensures { result ≡ lesser a b }
{
    match (a, b) {
        (Verdict::False, _) => Verdict::False,
        (Verdict::True, verdict) => verdict,
        (Verdict::Open, Verdict::False) => Verdict::False,
        (Verdict::Open, _) => Verdict::Open,
    }
}

/// The greater of two verdicts.
pub fn greater(a: Verdict, b: Verdict) -> Verdict
    ensures { result ≡ greater a b }
{
    match (a, b) {
        (Verdict::True, _) => Verdict::True,
        (Verdict::False, verdict) => verdict,
        (Verdict::Open, Verdict::True) => Verdict::True,
        (Verdict::Open, _) => Verdict::Open,
    }
}

/// Whether the verdict is True.
pub fn is_true(verdict: Verdict) -> bool
    ensures { result ≡ is_true verdict }
{
    matches!(verdict, Verdict::True)
}

/// Whether the verdict is False.
pub fn is_false(verdict: Verdict) -> bool
    ensures { result ≡ is_false verdict }
{
    matches!(verdict, Verdict::False)
}

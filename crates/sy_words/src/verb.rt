/// What a power does.
#[derive(Clone, Copy, Debug, PartialEq, Eq)]
pub enum Verb {
    Suspends,
    Resumes,
    Discharges,
    Terminates,
    Triggers,
}

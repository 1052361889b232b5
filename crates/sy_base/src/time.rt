/// The unit in which a contract counts time.
#[derive(Clone, Copy, Debug, PartialEq, Eq)]
pub enum TimeUnit {
    Minute,
    Hour,
    Day,
}

/// A whole number of units since 1970-01-01T00:00, in the proleptic Gregorian calendar with days of
/// 24 hours.
pub type Point = i64;

/// What a duration counts.
#[derive(Clone, Copy, Debug, PartialEq, Eq)]
pub enum Measure {
    Minutes,
    Hours,
    Days,
    Weeks,
}

/// A span of time: a count of one measure.
#[derive(Clone, Copy, Debug, PartialEq, Eq)]
pub struct Duration {
    pub count: u64,
    pub measure: Measure,
}

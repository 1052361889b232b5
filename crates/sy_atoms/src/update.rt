use sy_base::Point;

/// What is told of one atom at a point. An atom takes what concerns its sort, and lets the rest be.
#[derive(Clone, Copy, Debug)]
pub struct Update {
    /// Whether its event happens.
    pub happens: bool,
    /// The value that its first date comes to have, if it has none yet.
    pub from: Option<Point>,
    /// The value that its second date comes to have, if it has none yet.
    pub to: Option<Point>,
    /// Whether its situation holds from the next point on, if that changes.
    pub holds: Option<bool>,
}

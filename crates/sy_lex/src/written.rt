use sy_base::{Place, Text};

/// A token as it stands in the source: its own text, and where it begins.
///
/// A number keeps its leading zeros here, and a text its quotes and escapes.
#[derive(Debug, Drop)]
pub struct Written {
    pub text: Text,
    pub place: Place,
}

ghost use Rattle.sy_axioms.specs.Machine.Ready.{IsReady};

use crate::moment::Moment;
use sy_core::Deed;

/// The point now, the points before it from start on, and the deed: all that a condition or a
/// verdict looks at.
#[derive(Clone, Copy)]
pub(crate) struct Present<'a> {
    pub deed: &'a Deed,
    pub moment: &'a Moment,
    pub before: &'a [Moment],
    ghost ready: { IsReady deed.now before.now moment.now },
}

ghost use Rattle.std.specs.Prelude.{◌≡◌, ◌<◌, ◌^◌, ℕ, Bool, List, length};
ghost use Rattle.std.specs.List.{position_from};
ghost use Rattle.sy_log.specs.Entries.{event_has_name, power_has_name};
ghost use Rattle.sy_log.specs.Values.{same};

use sy_base::Text;
use sy_core::{EventDecl, Position, is_power};

/// Something that a line may name.
pub(crate) trait Named {
    /// Whether it has a name.
    ghost has_name: { List ℕ → Self → Bool };

    /// Whether it has a name.
    fn has_name(&self, name: &Text) -> bool
        ensures { result ≡ has_name name.now self.now };
}

impl Named for Text {
    ghost has_name = { same };

    fn has_name(&self, name: &Text) -> bool {
        name == self
    }
}

impl Named for EventDecl {
    ghost has_name = { event_has_name };

    fn has_name(&self, name: &Text) -> bool {
        *name == self.name
    }
}

/// Only a power has a name here.
impl Named for Position {
    ghost has_name = { power_has_name };

    fn has_name(&self, name: &Text) -> bool {
        is_power(self.form) && *name == self.name
    }
}

/// The place of the first of some things that has a name.
pub(crate) fn place_named<T: Named>(name: &Text, things: &[T]) -> Option<u32>
    requires { length things.now < 2 ^ 32 }
    ensures { result ≡ position_from (T.has_name name.now) 0 things.now }
{
    'thing: for (i, thing) in things.iter().enumerate() {
        if thing.has_name(name) {
            return Some(i as u32);
        }
    }
    None
}

ghost use Rattle.std.specs.Prelude.{◌≡◌, IfOk};

use std::alloc::Global;
use sy_base::Memory;
use sy_given::Known;

/// What a path or a term stands for.
#[derive(Debug, Drop)]
pub enum Item {
    Value(Known),
    /// The parameter with this number, which is bound to the values of its attributes.
    Parameter(usize),
    /// The declaration with this number.
    Declaration(usize),
}

impl Item {
    /// An equal item.
    pub(crate) fn copy(&self, alloc: Global) -> Result<Item, Memory>
        ensures { IfOk result (λ item. item ≡ self.now) }
    {
        Ok(match self {
            Item::Value(known) => Item::Value(known.copy(alloc)?),
            Item::Parameter(number) => Item::Parameter(*number),
            Item::Declaration(number) => Item::Declaration(*number),
        })
    }
}

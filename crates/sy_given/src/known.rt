ghost use Rattle.std.specs.Prelude.{◌≡◌, [], IfOk, OnOk, option_copied};
ghost use Rattle.std.specs.Map.{lookup};
ghost use Rattle.indexmap.specs.IndexMap.{insert_entry};
ghost use Rattle.sy_domain.specs.Names.{same};

use indexmap::IndexMap;
use std::alloc::Global;
use std::marker::Model;
use sy_base::{Memory, Point, Text};

/// A value that a binding writes.
#[derive(Debug, Drop)]
pub enum Known {
    /// From -10^15 to 10^15.
    Number(i64),
    /// What stands between the quotes, each escape as the byte that it stands for.
    Text(Text),
    Boolean(bool),
    Date(Point),
    /// A constant: the number of its enumeration among the types, and its own number there.
    Constant(usize, usize),
}

impl Known {
    /// An equal value.
    pub fn copy(&self, alloc: Global) -> Result<Known, Memory>
        ensures { IfOk result (λ known. known ≡ self.now) }
    {
        Ok(match self {
            Known::Number(number) => Known::Number(*number),
            Known::Text(text) => Known::Text(text.copy(alloc)?),
            Known::Boolean(truth) => Known::Boolean(*truth),
            Known::Date(point) => Known::Date(*point),
            Known::Constant(of, number) => Known::Constant(*of, *number),
        })
    }
}

/// What a parameter is bound to.
#[derive(Drop)]
pub enum Bound {
    /// One value.
    Value(Known),
    /// The values of its attributes.
    Fields(Fields),
}

/// Values of attributes, by the attributes' names.
#[derive(Drop)]
pub struct Fields {
    table: IndexMap<Text, Known>,
}

impl Model for Fields {
    ghost use Rattle.std.specs.Prelude.{List, ℕ};
    ghost use Rattle.sy_given.specs.declared.known.Known.{Known as AKnown};

    ghost Value = { List (List ℕ × AKnown) };

    ghost view = { λ f. f.table.entries };
}

impl Fields {
    /// No values.
    pub(crate) fn new(alloc: Global) -> Fields
        ensures { result ≡ [] }
    {
        Fields {
            table: IndexMap::new(alloc),
        }
    }

    /// Gives an attribute its value.
    pub(crate) fn put(&mut self, name: Text, value: Known) -> Result<(), Memory>
        ensures { OnOk result (self.new ≡ insert_entry same self.old name value) }
    {
        self.table.insert(name, value)?;
        Ok(())
    }

    /// The value of an attribute, where it has one.
    pub fn get(&self, name: &Text) -> Option<&Known>
        ensures { option_copied result ≡ lookup (same name.now) self.now }
    {
        self.table.get(name)
    }
}

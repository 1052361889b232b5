ghost use Rattle.std.specs.Prelude.{◌≡◌, IfOk, IsTrue, ◌↔◌, ◌<ℤ◌};
ghost use Rattle.std.specs.declared.cmp.Ordering.TheVariants.{Less, Equal, Greater};

use crate::value::Value;
use std::alloc::Global;
use std::cmp::Ordering;
use sy_base::{List, Memory, Point};

/// What happened.
#[derive(Debug, Drop, PartialEq, Eq, PartialOrd, Ord)]
pub enum What {
    /// The event with this place in the deed's `events`, and a value for each of its attributes.
    Event(u32, List<Value>),
    /// The exertion of the power with this place in the deed's `positions`.
    Exert(u32),
}

/// What happened, and when.
#[derive(Debug, Drop, PartialEq, Eq, PartialOrd, Ord)]
pub struct Happening {
    pub point: Point,
    pub what: What,
}

fn copy_values(alloc: Global, values: &[Value]) -> Result<List<Value>, Memory>
    ensures { IfOk result (λ l. l ≡ values.now) }
{
    let mut copied = List::new(alloc);
    for value in values {
        copied.push(value.copy(alloc)?)?;
    }
    Ok(copied)
}

impl What {
    /// An equal one.
    pub fn copy(&self, alloc: Global) -> Result<What, Memory>
        ensures { IfOk result (λ w. w ≡ self.now) }
    {
        Ok(match self {
            What::Event(event, values) => What::Event(*event, copy_values(alloc, values.items())?),
            What::Exert(power) => What::Exert(*power),
        })
    }

    /// Whether the same happened. So `==` answers too.
    pub fn is_same(&self, other: &What) -> bool
        ensures { IsTrue result ↔ (self.now ≡ other.now) }
    {
        self == other
    }
}

impl Happening {
    /// An equal happening.
    pub fn copy(&self, alloc: Global) -> Result<Happening, Memory>
        ensures { IfOk result (λ h. h ≡ self.now) }
    {
        Ok(Happening {
            point: self.point,
            what: self.what.copy(alloc)?,
        })
    }

    /// Whether the happenings are the same. So `==` answers too.
    pub fn is_same(&self, other: &Happening) -> bool
        ensures { IsTrue result ↔ (self.now ≡ other.now) }
    {
        self == other
    }

    /// The order of the happenings: by point first, and only the same stand level. So `cmp` answers
    /// too.
    pub fn order(&self, other: &Happening) -> Ordering
        ensures earlier { self.now.point <ℤ other.now.point → result ≡ Less }
        ensures later { other.now.point <ℤ self.now.point → result ≡ Greater }
        ensures same { (result ≡ Equal) ↔ (self.now ≡ other.now) }
    {
        self.cmp(other)
    }
}

ghost use Rattle.std.specs.Prelude.{◌≡◌, ◌++◌, ◌≤◌, ◌^◌, nat_le, IfOk, OnOk};
ghost use Rattle.sy_base.specs.Measures as measures;
ghost use Rattle.sy_literal.specs.Numbers.{great_numbers, too_great};
ghost use Rattle.sy_literal.specs.Values.{number_value};

use crate::literals::{Literals, walk_literals};
use crate::number;
use crate::values::GREATEST_NUMBER;
use std::alloc::Global;
use sy_base::{List, Measure, Memory, Text};
use sy_domain::{Failure, fail_unless};
use sy_lex::Written;
use sy_spec::SpecTree;
use sy_tree::{CountTree, DurationTree, SingleTree};

/// The greatest count of a measure: each spans at most 146,097 days.
pub fn greatest_count(measure: Measure) -> u64
    ensures value { result ≡ measures.greatest_count measure }
    ensures bound { result ≤ 10 ^ 15 }
{
    match measure {
        Measure::Minutes => 210_379_680,
        Measure::Hours => 3_506_328,
        Measure::Days => 146_097,
        Measure::Weeks => 20_871,
    }
}

/// Whether the number that digits write is at most the limit.
fn is_within(digits: &Text, limit: u64) -> bool
    requires { limit ≤ 10 ^ 15 }
    ensures { result ≡ nat_le (number_value digits.now) limit }
{
    match number(digits) {
        Some(number) => number <= limit,
        None => false,
    }
}

/// Puts a number behind the others, where it is above the limit.
fn check_number(
    alloc: Global,
    limit: u64,
    number: &Written,
    out: &mut List<Failure>,
) -> Result<(), Memory>
    requires { limit ≤ 10 ^ 15 }
    ensures { OnOk result (out.new ≡ out.old ++ too_great limit number.now) }
{
    fail_unless(alloc, is_within(&number.text, limit), number, out)
}

/// Finds the numbers that are too great.
#[derive(Drop)]
struct GreatNumbers {
    alloc: Global,
}

impl Literals for GreatNumbers {
    ghost use Rattle.sy_literal.specs.Numbers.{great_literals};

    ghost found_literals = { λ _. great_literals };

    fn single(&self, single: &SingleTree, out: &mut List<Failure>) -> Result<(), Memory> {
        match single {
            SingleTree::Number(number) | SingleTree::Negative(_, number) => {
                check_number(self.alloc, GREATEST_NUMBER, number, out)
            }
            _ => Ok(()),
        }
    }

    fn fixed(&self, _: &Written, _: &mut List<Failure>) -> Result<(), Memory> {
        Ok(())
    }

    fn duration(&self, duration: &DurationTree, out: &mut List<Failure>) -> Result<(), Memory> {
        match &duration.count {
            CountTree::Number(number) => {
                check_number(
                    self.alloc,
                    greatest_count(duration.measure.measure),
                    number,
                    out,
                )
            }
            CountTree::Path(_) => Ok(()),
        }
    }
}

/// The numbers of a specification that are above 10^15, and the counts that are above the greatest
/// of their measure.
pub fn numbers_out_of_range(alloc: Global, tree: &SpecTree) -> Result<List<Failure>, Memory>
    ensures { IfOk result (λ found. found ≡ great_numbers tree.now) }
{
    let mut out = List::new(alloc);
    walk_literals(&GreatNumbers { alloc }, tree, &mut out)?;
    Ok(out)
}

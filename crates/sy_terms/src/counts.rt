ghost use Rattle.std.specs.Prelude.{◌≡◌, IfOk};
ghost use Rattle.sy_terms.specs.Counts as counts;
ghost use Rattle.sy_terms.specs.Counts.{count_of};

use crate::numbers::written_number;
use crate::terms::number_of;
use crate::{Environment, item_of_path};
use std::alloc::Global;
use sy_base::{Measure, Memory};
use sy_literal::greatest_count;
use sy_scope::Scope;
use sy_tree::CountTree;

/// A number as a count of a measure, where it is one.
fn bound_count(measure: Measure, number: i64) -> Option<u64>
    ensures { result ≡ counts.bound_count measure number }
{
    if number < 0 {
        return None;
    }
    let count = number as u64;
    if count > greatest_count(measure) {
        return None;
    }
    Some(count)
}

/// The number that stands before a measure.
fn count_number(
    alloc: Global,
    scope: &Scope,
    environment: &Environment,
    count: &CountTree,
) -> Result<Option<i64>, Memory>
    ensures { IfOk result (λ number. number
        ≡ counts.count_number scope.now environment.now count.now) }
{
    match count {
        CountTree::Number(token) => Ok(written_number(token)),
        CountTree::Path(path) => {
            let item = item_of_path(alloc, scope, environment, path)?;
            Ok(number_of(&item))
        }
    }
}

/// How many of a measure a duration counts: None where what stands there is no number, or one below
/// 0 or above the greatest count of the measure.
pub fn duration_count(
    alloc: Global,
    scope: &Scope,
    environment: &Environment,
    measure: Measure,
    count: &CountTree,
) -> Result<Option<u64>, Memory>
    ensures { IfOk result (λ found. found
        ≡ count_of scope.now environment.now measure count.now) }
{
    match count_number(alloc, scope, environment, count)? {
        Some(number) => Ok(bound_count(measure, number)),
        None => Ok(None),
    }
}

ghost use Rattle.std.specs.Prelude.{◌≡◌, ◌++◌, OnOk};
ghost use Rattle.sy_types.specs.Dates as dates;

use crate::terms::is_number;
use std::alloc::Global;
use sy_base::{List, Memory};
use sy_domain::{Failure, Sort, fail_unless};
use sy_scope::{Scope, path_token};
use sy_tree::{CountTree, DurationTree, PathTree};

fn is_date(sort: Option<Sort>) -> bool
    ensures { result ≡ dates.is_date sort }
{
    matches!(sort, Some(Sort::Date))
}

/// Finds a path that begins a date term and is no date.
pub(crate) fn check_moment(
    alloc: Global,
    scope: &Scope,
    visible: usize,
    path: &PathTree,
    out: &mut List<Failure>,
) -> Result<(), Memory>
    ensures { OnOk result (out.new ≡ out.old ++ dates.wrong_moment scope.now visible path.now) }
{
    let well = is_date(scope.path(visible, path));
    fail_unless(alloc, well, path_token(path), out)
}

/// Finds a path that counts a duration and is no number.
pub(crate) fn check_duration(
    alloc: Global,
    scope: &Scope,
    visible: usize,
    duration: &DurationTree,
    out: &mut List<Failure>,
) -> Result<(), Memory>
    ensures { OnOk result (out.new ≡ out.old ++ dates.wrong_duration scope.now visible duration.now) }
{
    match &duration.count {
        CountTree::Number(_) => Ok(()),
        CountTree::Path(path) => {
            let well = is_number(scope.path(visible, path));
            fail_unless(alloc, well, path_token(path), out)
        }
    }
}

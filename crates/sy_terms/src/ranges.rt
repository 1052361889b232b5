ghost use Rattle.std.specs.Prelude.{◌≡◌, ◌++◌, IfOk, OnOk};
ghost use Rattle.std.specs.List.{flat_map};
ghost use Rattle.sy_terms.specs.Ranges.{out_of_range, out_of_range_declaration, out_of_range_give, out_of_range_rhs, out_of_range_term};

use crate::{Environment, duration_count, item_of_term};
use std::alloc::Global;
use sy_base::{List, Memory, Place};
use sy_domain::{Failure, fail_unless};
use sy_lex::Written;
use sy_scope::{Leaves, Scope, fail_at_term, path_token, walk_contract};
use sy_spec::{DeclTree, GiveTree, SpecTree};
use sy_tree::{
    CmpTree, CountTree, DurationTree, GuardTree, PathTree, RhsTree, SituationTree, TargetTree,
    TermTree,
};
use sy_words::Kind;

/// Finds the terms that lie outside their range. Each call puts what it finds behind the others.
#[derive(Drop)]
struct Ranges<'a> {
    alloc: Global,
    scope: &'a Scope,
    environment: &'a Environment,
}

impl<'a> Ranges<'a> {
    fn check_term(&self, term: &TermTree, out: &mut List<Failure>) -> Result<(), Memory>
        ensures { OnOk result (out.new ≡ out.old
            ++ out_of_range_term self.now.scope.now self.now.environment.now term.now) }
    {
        let item = item_of_term(self.alloc, self.scope, self.environment, term)?;
        if item.is_none() {
            out.push(fail_at_term(self.alloc, term)?)?;
        }
        Ok(())
    }

    fn check_rhs(&self, rhs: &RhsTree, out: &mut List<Failure>) -> Result<(), Memory>
        ensures { OnOk result (out.new ≡ out.old
            ++ out_of_range_rhs self.now.scope.now self.now.environment.now rhs.now) }
    {
        match rhs {
            RhsTree::Term(term) => self.check_term(term, out),
            RhsTree::Const(_, _) => Ok(()),
        }
    }

    fn check_gives(&self, gives: &[GiveTree], out: &mut List<Failure>) -> Result<(), Memory>
        ensures { OnOk result (out.new ≡ out.old ++ flat_map
            (out_of_range_give self.now.scope.now self.now.environment.now) gives.now) }
    {
        'give: for give in gives {
            self.check_rhs(&give.value, out)?;
        }
        Ok(())
    }

    fn check_declarations(
        &self,
        declarations: &[DeclTree],
        out: &mut List<Failure>,
    ) -> Result<(), Memory>
        ensures { OnOk result (out.new ≡ out.old ++ flat_map
            (out_of_range_declaration self.now.scope.now self.now.environment.now)
            declarations.now) }
    {
        'declaration: for declaration in declarations {
            self.check_gives(declaration.gives.items(), out)?;
        }
        Ok(())
    }
}

impl<'a> Leaves for Ranges<'a> {
    ghost use Rattle.sy_terms.specs.Ranges.{out_of_range_parts};

    ghost found = { λ ranges. out_of_range_parts ranges.scope.now ranges.environment.now };

    fn comparison(
        &self,
        left: &TermTree,
        _: &CmpTree,
        right: &RhsTree,
        out: &mut List<Failure>,
    ) -> Result<(), Memory> {
        self.check_term(left, out)?;
        self.check_rhs(right, out)
    }

    fn happening(&self, _: &Written, _: &mut List<Failure>) -> Result<(), Memory> {
        Ok(())
    }

    fn guard(&self, _: &Written, guard: &GuardTree, out: &mut List<Failure>) -> Result<(), Memory> {
        self.check_rhs(&guard.value, out)
    }

    fn internal(
        &self,
        _: Kind,
        _: Place,
        _: &TargetTree,
        _: &mut List<Failure>,
    ) -> Result<(), Memory> {
        Ok(())
    }

    fn situation(&self, _: &SituationTree, _: &mut List<Failure>) -> Result<(), Memory> {
        Ok(())
    }

    fn fixed(&self, _: &Written, _: &mut List<Failure>) -> Result<(), Memory> {
        Ok(())
    }

    fn path(&self, _: &PathTree, _: &mut List<Failure>) -> Result<(), Memory> {
        Ok(())
    }

    fn duration(&self, duration: &DurationTree, out: &mut List<Failure>) -> Result<(), Memory> {
        let count = &duration.count;
        match count {
            CountTree::Number(_) => Ok(()),
            CountTree::Path(path) => {
                let measure = duration.measure.measure;
                let found = duration_count(
                    self.alloc,
                    self.scope,
                    self.environment,
                    measure,
                    count,
                )?;
                fail_unless(self.alloc, found.is_some(), path_token(path), out)
            }
        }
    }
}

/// The terms of a specification that lie outside their range.
pub(crate) fn find_out_of_range(
    alloc: Global,
    scope: &Scope,
    environment: &Environment,
    spec: &SpecTree,
) -> Result<List<Failure>, Memory>
    ensures { IfOk result (λ found. found
        ≡ out_of_range scope.now environment.now spec.now) }
{
    let ranges = Ranges {
        alloc,
        scope,
        environment,
    };
    let mut out = List::new(alloc);
    ranges.check_declarations(spec.contract.declarations.items(), &mut out)?;
    walk_contract(&ranges, &spec.contract, &mut out)?;
    Ok(out)
}

ghost use Rattle.std.specs.Prelude.{◌≡◌, ◌++◌, [], OnOk};
ghost use Rattle.std.specs.List.{flat_map};
ghost use Rattle.sy_scope.specs.Walks.{found_in};
ghost use Rattle.sy_literal.specs.Literals.{declaration_literals, factor_literals, give_literals, literal_finds, rhs_literals, spec_literals, summand_literals, term_literals};

use sy_base::{List, Memory, Place};
use sy_domain::Failure;
use sy_lex::Written;
use sy_scope::{Leaves, summand, walk_contract};
use sy_spec::{DeclTree, GiveTree, SpecTree};
use sy_tree::{
    CmpTree, DurationTree, FactorTree, GuardTree, PathTree, RhsTree, SingleTree, SituationTree,
    SumTree, TargetTree, TermTree,
};
use sy_words::Kind;

/// What a check finds in literals. Each call puts what it finds behind the others.
pub(crate) trait Literals {
    ghost use Rattle.sy_literal.specs.Literals.{Literals as Found};

    /// What is found.
    ghost found_literals: { Self → Found };

    /// In a part of a product.
    fn single(&self, single: &SingleTree, out: &mut List<Failure>) -> Result<(), Memory>
        ensures { OnOk result (out.new ≡ out.old ++ (found_literals self.now).single single.now) };

    /// In a date that begins a date term.
    fn fixed(&self, date: &Written, out: &mut List<Failure>) -> Result<(), Memory>
        ensures { OnOk result (out.new ≡ out.old ++ (found_literals self.now).fixed date.now) };

    /// In a duration.
    fn duration(&self, duration: &DurationTree, out: &mut List<Failure>) -> Result<(), Memory>
        ensures { OnOk result (out.new ≡ out.old ++ (found_literals self.now).duration duration.now) };
}

/// Goes through the parts of a product.
fn walk_singles<L: Literals>(
    literals: &L,
    singles: &[SingleTree],
    out: &mut List<Failure>,
) -> Result<(), Memory>
    ensures { OnOk result (out.new ≡ out.old ++ flat_map (L.found_literals literals.now).single singles.now) }
{
    'single: for single in singles {
        literals.single(single, out)?;
    }
    Ok(())
}

/// Goes through a product.
fn walk_factor<L: Literals>(
    literals: &L,
    factor: &FactorTree,
    out: &mut List<Failure>,
) -> Result<(), Memory>
    ensures { OnOk result (out.new ≡ out.old ++ factor_literals (L.found_literals literals.now) factor.now) }
{
    literals.single(&factor.first, out)?;
    walk_singles(literals, factor.others.items(), out)
}

/// Goes through what is added to a product or taken from it.
fn walk_summands<L: Literals>(
    literals: &L,
    sums: &[SumTree],
    out: &mut List<Failure>,
) -> Result<(), Memory>
    ensures { OnOk result (out.new ≡ out.old ++ flat_map (summand_literals (L.found_literals literals.now)) sums.now) }
{
    'sum: for sum in sums {
        walk_factor(literals, summand(sum), out)?;
    }
    Ok(())
}

/// Goes through a sum.
fn walk_term<L: Literals>(
    literals: &L,
    term: &TermTree,
    out: &mut List<Failure>,
) -> Result<(), Memory>
    ensures { OnOk result (out.new ≡ out.old ++ term_literals (L.found_literals literals.now) term.now) }
{
    walk_factor(literals, &term.first, out)?;
    walk_summands(literals, term.others.items(), out)
}

/// Goes through the right side of a comparison, or what an attribute is given.
fn walk_rhs<L: Literals>(literals: &L, rhs: &RhsTree, out: &mut List<Failure>) -> Result<(), Memory>
    ensures { OnOk result (out.new ≡ out.old ++ rhs_literals (L.found_literals literals.now) rhs.now) }
{
    match rhs {
        RhsTree::Term(term) => walk_term(literals, term, out),
        RhsTree::Const(_, _) => Ok(()),
    }
}

/// Literals as parts of propositions.
#[derive(Drop)]
struct InPropositions<'a, L> {
    literals: &'a L,
}

impl<'a, L: Literals> Leaves for InPropositions<'a, L> {
    ghost use Rattle.sy_literal.specs.Literals.{literal_finds as found_in_parts};

    ghost found = { λ p. found_in_parts (L.found_literals p.literals.now) };

    fn comparison(
        &self,
        left: &TermTree,
        _: &CmpTree,
        right: &RhsTree,
        out: &mut List<Failure>,
    ) -> Result<(), Memory> {
        walk_term(self.literals, left, out)?;
        walk_rhs(self.literals, right, out)
    }

    fn happening(&self, _: &Written, _: &mut List<Failure>) -> Result<(), Memory> {
        Ok(())
    }

    fn guard(&self, _: &Written, guard: &GuardTree, out: &mut List<Failure>) -> Result<(), Memory> {
        walk_rhs(self.literals, &guard.value, out)
    }

    fn internal(
        &self,
        _: Kind,
        _: Place,
        _: &TargetTree,
        _: &mut List<Failure>,
    ) -> Result<(), Memory> {
        Ok(())
    }

    fn situation(&self, _: &SituationTree, _: &mut List<Failure>) -> Result<(), Memory> {
        Ok(())
    }

    fn fixed(&self, date: &Written, out: &mut List<Failure>) -> Result<(), Memory> {
        self.literals.fixed(date, out)
    }

    fn path(&self, _: &PathTree, _: &mut List<Failure>) -> Result<(), Memory> {
        Ok(())
    }

    fn duration(&self, duration: &DurationTree, out: &mut List<Failure>) -> Result<(), Memory> {
        self.literals.duration(duration, out)
    }
}

/// Goes through what a declaration gives.
fn walk_gives<L: Literals>(
    literals: &L,
    gives: &[GiveTree],
    out: &mut List<Failure>,
) -> Result<(), Memory>
    ensures { OnOk result (out.new ≡ out.old ++ flat_map (give_literals (L.found_literals literals.now)) gives.now) }
{
    'give: for give in gives {
        walk_rhs(literals, &give.value, out)?;
    }
    Ok(())
}

/// Goes through declarations.
fn walk_declarations<L: Literals>(
    literals: &L,
    declarations: &[DeclTree],
    out: &mut List<Failure>,
) -> Result<(), Memory>
    ensures { OnOk result (out.new ≡ out.old ++ flat_map (declaration_literals (L.found_literals literals.now)) declarations.now) }
{
    'declaration: for declaration in declarations {
        walk_gives(literals, declaration.gives.items(), out)?;
    }
    Ok(())
}

/// Goes through all literals of a specification, and puts what is found behind the others.
pub(crate) fn walk_literals<L: Literals>(
    literals: &L,
    tree: &SpecTree,
    out: &mut List<Failure>,
) -> Result<(), Memory>
    ensures { OnOk result (out.new ≡ out.old ++ spec_literals (L.found_literals literals.now) tree.now) }
{
    walk_declarations(literals, tree.contract.declarations.items(), out)?;
    walk_contract(&InPropositions { literals }, &tree.contract, out)
}

ghost use Rattle.std.specs.Prelude.{◌≡◌, ◌++◌, IfOk, OnOk};
ghost use Rattle.std.specs.List.{flat_map};
ghost use Rattle.sy_names.specs.Paths.{unknown_attribute, unknown_in_duration, unknown_in_factor, unknown_in_path, unknown_in_rhs, unknown_in_single, unknown_in_summand, unknown_in_term, unknown_thing};
ghost use Rattle.sy_scope.specs.Scopes.{attribute_sort, thing_sort};

use crate::uses::Uses;
use sy_base::{List, Memory};
use sy_domain::{Failure, Sort, fail_unless};
use sy_lex::Written;
use sy_scope::summand;
use sy_tree::{
    CountTree, DurationTree, FactorTree, PathTree, RhsTree, SingleTree, SumTree, TermTree,
};

impl<'a> Uses<'a> {
    /// The name of a parameter, a constant or a declaration, and the sort of that thing.
    pub(crate) fn check_thing(
        &self,
        name: &Written,
        out: &mut List<Failure>,
    ) -> Result<Option<Sort>, Memory>
        ensures sort { IfOk result (λ sort. sort ≡ thing_sort self.now.scope.now self.now.visible name.now.text) }
        ensures found { OnOk result (out.new ≡ out.old ++ unknown_thing self.now.scope.now self.now.visible name.now) }
    {
        let sort = self.scope.thing(self.visible, &name.text);
        fail_unless(self.alloc, sort.is_some(), name, out)?;
        Ok(sort)
    }

    /// The name of an attribute of a thing of a sort, and the sort of the attribute.
    pub(crate) fn check_attribute(
        &self,
        sort: Option<Sort>,
        name: &Written,
        out: &mut List<Failure>,
    ) -> Result<Option<Sort>, Memory>
        ensures sort { IfOk result (λ found. found ≡ attribute_sort self.now.scope.now name.now.text sort) }
        ensures found { OnOk result (out.new ≡ out.old ++ unknown_attribute self.now.scope.now sort name.now) }
    {
        let Some(sort) = sort else {
            return Ok(None);
        };
        let found = self.scope.plain(sort, &name.text);
        fail_unless(self.alloc, found.is_some(), name, out)?;
        Ok(found)
    }

    /// A path.
    pub(crate) fn check_path(&self, path: &PathTree, out: &mut List<Failure>) -> Result<(), Memory>
        ensures { OnOk result (out.new ≡ out.old ++ unknown_in_path self.now.scope.now self.now.visible path.now) }
    {
        match path {
            PathTree::Name(name) => {
                self.check_thing(name, out)?;
            }
            PathTree::Attribute(name, attribute) => {
                let sort = self.check_thing(name, out)?;
                self.check_attribute(sort, attribute, out)?;
            }
            PathTree::Inner(name, attribute, inner) => {
                let sort = self.check_thing(name, out)?;
                let sort = self.check_attribute(sort, attribute, out)?;
                self.check_attribute(sort, inner, out)?;
            }
        }
        Ok(())
    }

    /// A part of a product.
    fn check_single(&self, single: &SingleTree, out: &mut List<Failure>) -> Result<(), Memory>
        ensures { OnOk result (out.new ≡ out.old ++ unknown_in_single self.now.scope.now self.now.visible single.now) }
    {
        match single {
            SingleTree::Path(path) => self.check_path(path, out),
            _ => Ok(()),
        }
    }

    /// Parts of a product.
    fn check_singles(&self, singles: &[SingleTree], out: &mut List<Failure>) -> Result<(), Memory>
        ensures { OnOk result (out.new ≡ out.old
            ++ flat_map (unknown_in_single self.now.scope.now self.now.visible) singles.now) }
    {
        'single: for single in singles {
            self.check_single(single, out)?;
        }
        Ok(())
    }

    /// A product.
    fn check_factor(&self, factor: &FactorTree, out: &mut List<Failure>) -> Result<(), Memory>
        ensures { OnOk result (out.new ≡ out.old ++ unknown_in_factor self.now.scope.now self.now.visible factor.now) }
    {
        self.check_single(&factor.first, out)?;
        self.check_singles(factor.others.items(), out)
    }

    /// The further parts of a sum.
    fn check_summands(&self, sums: &[SumTree], out: &mut List<Failure>) -> Result<(), Memory>
        ensures { OnOk result (out.new ≡ out.old
            ++ flat_map (unknown_in_summand self.now.scope.now self.now.visible) sums.now) }
    {
        'sum: for sum in sums {
            self.check_factor(summand(sum), out)?;
        }
        Ok(())
    }

    /// A sum.
    pub(crate) fn check_term(&self, term: &TermTree, out: &mut List<Failure>) -> Result<(), Memory>
        ensures { OnOk result (out.new ≡ out.old ++ unknown_in_term self.now.scope.now self.now.visible term.now) }
    {
        self.check_factor(&term.first, out)?;
        self.check_summands(term.others.items(), out)
    }

    /// The right side of a comparison, and what an attribute is given.
    pub(crate) fn check_rhs(&self, rhs: &RhsTree, out: &mut List<Failure>) -> Result<(), Memory>
        ensures { OnOk result (out.new ≡ out.old ++ unknown_in_rhs self.now.scope.now self.now.visible rhs.now) }
    {
        match rhs {
            RhsTree::Term(term) => self.check_term(term, out),
            RhsTree::Const(_, _) => Ok(()),
        }
    }

    /// A duration.
    pub(crate) fn check_duration(
        &self,
        duration: &DurationTree,
        out: &mut List<Failure>,
    ) -> Result<(), Memory>
        ensures { OnOk result (out.new ≡ out.old ++ unknown_in_duration self.now.scope.now self.now.visible duration.now) }
    {
        match &duration.count {
            CountTree::Path(path) => self.check_path(path, out),
            CountTree::Number(_) => Ok(()),
        }
    }
}

ghost use Rattle.std.specs.Prelude.{◌≡◌, ◌++◌, map, reverse, IfOk, OnOk, option_copied, option_map, slice_get};
ghost use Rattle.std.specs.List.{flat_map};
ghost use Rattle.std.specs.Map.{lookup, keys_of};
ghost use Rattle.sy_chains.specs.Chains as chains;
ghost use Rattle.sy_chains.specs.Chains.{NoCycle};
ghost use Rattle.sy_domain.specs.Chains.{base_number};
ghost use Rattle.sy_domain.specs.Names.{all_names, meaning_in, same};
ghost use Rattle.sy_domain.specs.declared.meaning.Sort.TheVariants as S;
ghost use Rattle.sy_domain.specs.Ontologies as ontologies;
ghost use Rattle.sy_domain.specs.Ontologies.{domain_of, inherited, kind_at, member_in, members_in, owned_at, sort_named};

use crate::chains::all_bases;
use crate::members::{all_kinds, all_owned, copy_names, sort_named};
use crate::{Meaning, Names, Sort};
use indexmap::IndexMap;
use std::alloc::Global;
use std::marker::Model;
use sy_base::{List, Memory, Text};
use sy_chains::{base_at, chain_above, is_above};
use sy_spec::SpecTree;

/// What kind of type it is.
#[derive(Clone, Copy, Debug, PartialEq, Eq)]
pub enum TypeKind {
    Role,
    Asset,
    Event,
    Enumeration,
}

/// An attribute of a type, an own or an inherited one.
#[derive(Clone, Copy, Debug, PartialEq, Eq)]
pub struct Member {
    /// Whether each happening gives its value.
    pub env: bool,
    pub sort: Sort,
}

/// The names of a specification, and its types by their numbers.
#[derive(Drop)]
pub struct Ontology {
    names: Names,
    bases: List<Option<usize>>,
    kinds: List<Option<TypeKind>>,
    /// The own members of each type by their names.
    owned: Vec<IndexMap<Text, Member>>,
}

impl Model for Ontology {
    ghost use Rattle.std.specs.Prelude.{map};
    ghost use Rattle.sy_domain.specs.Ontologies.{Domain};

    ghost Value = { Domain };

    ghost view = { λ o. record {
      table = o.names.table;
      bases = o.bases;
      kinds = o.kinds;
      owned = map (λ m. m.entries) o.owned.items;
    } };
}

impl Ontology {
    /// The types of a specification.
    pub(crate) fn of(alloc: Global, names: Names, tree: &SpecTree) -> Result<Ontology, Memory>
        requires names { names ≡ all_names tree.now }
        requires none { NoCycle (map (base_number (all_names tree.now).table) tree.now.domain.types) }
        ensures { IfOk result (λ o. o ≡ domain_of tree.now) }
    {
        let types = tree.domain.types.items();
        let bases = all_bases(alloc, &names, types)?;
        let kinds = all_kinds(alloc, types, bases.items())?;
        let owned = all_owned(alloc, &names, types)?;
        Ok(Ontology {
            names,
            bases,
            kinds,
            owned,
        })
    }

    /// What a name of the shared space stands for.
    pub fn meaning(&self, name: &Text) -> Option<Meaning>
        ensures { result ≡ meaning_in self.now.table name.now }
    {
        self.names.meaning(name)
    }

    /// The sort that a type's name stands for; numbers, where it is no type.
    pub fn sort(&self, name: &Text) -> Sort
        ensures { result ≡ sort_named self.now.table name.now }
    {
        sort_named(&self.names, name)
    }

    /// The kind of the type with a number.
    pub fn kind(&self, number: usize) -> Option<TypeKind>
        ensures { result ≡ kind_at self.now number }
    {
        match self.kinds.items().get(number) {
            Some(kind) => *kind,
            None => None,
        }
    }

    /// The own member of a type with a name.
    fn own_member(&self, number: usize, name: &Text) -> Option<Member>
        ensures { result ≡ lookup (same name.now) (owned_at self.now number) }
    {
        match self.owned.get(number) {
            Some(members) => members.get(name).copied(),
            None => None,
        }
    }

    /// The member with a name that a type inherits.
    fn inherited(&self, number: usize, name: &Text) -> Option<Member>
        ensures { result ≡ lookup (same name.now) (inherited self.now number) }
    {
        let bases = self.bases.items();
        let mut at = base_at(bases, number);
        'steps: for k in 0..bases.len() {
            let reached = at?;
            match self.own_member(reached, name) {
                Some(member) => return Some(member),
                None => at = base_at(bases, reached),
            }
        }
        None
    }

    /// A member of the things of a sort.
    pub fn member(&self, sort: Sort, name: &Text) -> Option<Member>
        ensures { result ≡ member_in self.now sort name.now }
    {
        match sort {
            Sort::Declared(number) => match self.own_member(number, name) {
                Some(member) => Some(member),
                None => self.inherited(number, name),
            },
            _ => None,
        }
    }

    /// The own members of the type with a number by their names.
    pub fn own_members(&self, number: usize) -> Option<&IndexMap<Text, Member>>
        ensures { option_map (λ m. m.entries) (option_copied result) ≡ slice_get self.now.owned number }
    {
        self.owned.get(number)
    }

    /// The isA chain above a type, by the numbers of its types, from its base on.
    pub fn above(&self, alloc: Global, number: usize) -> Result<List<usize>, Memory>
        ensures { IfOk result (λ above. above ≡ chains.above self.now.bases number) }
    {
        chain_above(alloc, self.bases.items(), number)
    }

    /// The names of a type's own members.
    fn own_names(&self, number: usize) -> &[Text]
        ensures { result.now ≡ keys_of (owned_at self.now number) }
    {
        match self.owned.get(number) {
            Some(members) => members.keys().as_slice(),
            None => &[],
        }
    }

    /// Puts the names of the own members of some types behind other names, the last type's first.
    fn name_all(&self, alloc: Global, numbers: &[usize], out: &mut List<Text>) -> Result<(), Memory>
        ensures { OnOk result (out.new ≡ out.old
            ++ flat_map (λ n. keys_of (owned_at self.now n)) (reverse numbers.now)) }
    {
        'number: for number in numbers.iter().rev() {
            copy_names(alloc, self.own_names(*number), out)?;
        }
        Ok(())
    }

    /// The names of all members of the type with a number, the inherited ones first.
    pub fn member_names(&self, alloc: Global, number: usize) -> Result<List<Text>, Memory>
        ensures { IfOk result (λ names. names ≡ keys_of (members_in self.now (S.Declared number))) }
    {
        let above = self.above(alloc, number)?;
        let mut names = List::new(alloc);
        self.name_all(alloc, above.items(), &mut names)?;
        copy_names(alloc, self.own_names(number), &mut names)?;
        Ok(names)
    }

    /// Whether a type is another one, or has it on its isA chain.
    pub fn derives(&self, from: usize, to: usize) -> bool
        ensures { result ≡ ontologies.reaches self.now.bases from to }
    {
        from == to || is_above(self.bases.items(), from, to)
    }
}

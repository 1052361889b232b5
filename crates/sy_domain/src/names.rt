ghost use Rattle.std.specs.Prelude.{◌≡◌, ◌++◌, [], map, OnOk, IfOk};
ghost use Rattle.std.specs.List.{fold, flat_map, enumerate_from};
ghost use Rattle.sy_domain.specs.Names as names;
ghost use Rattle.sy_domain.specs.Names.{each_named, meaning_at, meaning_in, named, names_of_type, naming, no_names, repeats, repeated_attributes, all_names};

use crate::{Failure, Meaning, Sort};
use indexmap::{IndexMap, IndexSet};
use std::alloc::Global;
use std::marker::Model;
use sy_base::{List, Memory, Text};
use sy_lex::Written;
use sy_spec::{AttrTree, DeclTree, GiveTree, ObligTree, ParamTree, PowerTree, SpecTree, TypeTree};
use sy_words::Form;

/// What the names of the shared space stand for, and the names that were there already when they
/// were declared.
#[derive(Drop)]
pub struct Names {
    alloc: Global,
    table: IndexMap<Text, Meaning>,
    repeated: List<Failure>,
}

impl Model for Names {
    ghost use Rattle.sy_domain.specs.Names.{Naming};

    ghost Value = { Naming };

    ghost view = { λ n. record { table = n.table.entries; repeated = n.repeated } };
}

impl Names {
    /// What a name stands for.
    pub fn meaning(&self, name: &Text) -> Option<Meaning>
        ensures { result ≡ meaning_in self.now.table name.now }
    {
        self.table.get(name).copied()
    }

    /// Declares a name.
    fn declare(&mut self, name: &Written, meaning: Meaning) -> Result<(), Memory>
        ensures { OnOk result (self.new ≡ names.declare self.old (named name.now meaning)) }
    {
        if self.table.contains_key(&name.text) {
            self.repeated.push(Failure::at(self.alloc, name)?)?;
        } else {
            self.table.insert(name.text.copy(self.alloc)?, meaning)?;
        }
        Ok(())
    }

    /// Declares the names of some things of one kind.
    fn declare_each<T: HasName>(&mut self, slot: Slot, things: &[T]) -> Result<(), Memory>
        ensures { OnOk result (self.new ≡ fold names.declare self.old
            (each_named T.own_name (meaning_at slot) things.now)) }
    {
        'thing: for (i, thing) in things.iter().enumerate() {
            self.declare(thing.name(), slot.meaning(i))?;
        }
        Ok(())
    }

    /// Declares a type, and its constants.
    fn declare_type(&mut self, number: usize, tree: &TypeTree) -> Result<(), Memory>
        ensures { OnOk result (self.new ≡ fold names.declare self.old (names_of_type number tree.now)) }
    {
        let sort = Sort::Declared(number);
        match tree {
            TypeTree::Enumeration(name, listed) => {
                self.declare(name, Meaning::Type(sort))?;
                self.declare_each(Slot::Constant(number), listed.constants.items())
            }
            TypeTree::Derived(name, _, _) => self.declare(name, Meaning::Type(sort)),
        }
    }

    /// Declares the types, and their constants.
    fn declare_types(&mut self, types: &[TypeTree]) -> Result<(), Memory>
        ensures { OnOk result (self.new ≡ fold names.declare self.old
            (flat_map (λ p. names_of_type p.0 p.1) (enumerate_from 0 types.now))) }
    {
        'tree: for (i, tree) in types.iter().enumerate() {
            self.declare_type(i, tree)?;
        }
        Ok(())
    }

    /// No name but the basic types.
    fn new(alloc: Global) -> Result<Names, Memory>
        ensures { IfOk result (λ n. n ≡ no_names) }
    {
        let mut table = IndexMap::new(alloc);
        table.insert(Text::new(alloc, b"Number")?, Meaning::Type(Sort::Number))?;
        table.insert(Text::new(alloc, b"Text")?, Meaning::Type(Sort::Text))?;
        table.insert(Text::new(alloc, b"Boolean")?, Meaning::Type(Sort::Boolean))?;
        table.insert(Text::new(alloc, b"Date")?, Meaning::Type(Sort::Date))?;
        Ok(Names {
            alloc,
            table,
            repeated: List::new(alloc),
        })
    }

    /// Finds the names among some things that an earlier one of them has already.
    fn repeat<T: HasName>(&mut self, things: &[T]) -> Result<(), Memory>
        ensures table { self.new.table ≡ self.old.table }
        ensures repeated { OnOk result (self.new.repeated ≡
            self.old.repeated ++ repeats [] (map T.own_name things.now)) }
    {
        repeat_into(self.alloc, things, &mut self.repeated)
    }

    /// Finds the attributes of a type that repeat one.
    fn repeat_attributes(&mut self, tree: &TypeTree) -> Result<(), Memory>
        ensures table { self.new.table ≡ self.old.table }
        ensures repeated { OnOk result (self.new.repeated ≡
            self.old.repeated ++ repeated_attributes tree.now) }
    {
        match tree {
            TypeTree::Enumeration(_, _) => Ok(()),
            TypeTree::Derived(_, _, attributes) => self.repeat(attributes.items()),
        }
    }

    /// Finds the attributes of types that repeat one of their own type.
    fn repeat_all(&mut self, types: &[TypeTree]) -> Result<(), Memory>
        ensures table { self.new.table ≡ self.old.table }
        ensures repeated { OnOk result (self.new.repeated ≡
            self.old.repeated ++ flat_map repeated_attributes types.now) }
    {
        'tree: for tree in types {
            self.repeat_attributes(tree)?;
        }
        Ok(())
    }

    /// The names that were there already.
    pub fn repeated(&self) -> &[Failure]
        ensures { result.now ≡ self.now.repeated }
    {
        self.repeated.items()
    }

    /// The names of a specification, with each one that stands there twice.
    pub fn all(alloc: Global, tree: &SpecTree) -> Result<Names, Memory>
        ensures { IfOk result (λ n. n ≡ all_names tree.now) }
    {
        let mut names = Names::of(alloc, tree)?;
        names.repeat_all(tree.domain.types.items())?;
        Ok(names)
    }

    /// The names of a specification.
    pub fn of(alloc: Global, tree: &SpecTree) -> Result<Names, Memory>
        ensures { IfOk result (λ n. n ≡ naming tree.now) }
    {
        let mut names = Names::new(alloc)?;
        let contract = &tree.contract;
        names.declare_types(tree.domain.types.items())?;
        names.declare_each(Slot::Parameter, contract.parameters.items())?;
        names.declare_each(Slot::Declaration, contract.declarations.items())?;
        names.declare_each(
            Slot::Position(Form::Obligation),
            contract.obligations.items(),
        )?;
        names.declare_each(Slot::Position(Form::Surviving), contract.surviving.items())?;
        names.declare_each(Slot::Position(Form::Power), contract.powers.items())?;
        Ok(names)
    }
}

/// Finds the names among some things that an earlier one of them has already.
pub fn repeat_into<T: HasName>(
    alloc: Global,
    things: &[T],
    out: &mut List<Failure>,
) -> Result<(), Memory>
    ensures { OnOk result (out.new ≡ out.old ++ repeats [] (map T.own_name things.now)) }
{
    let mut seen: IndexSet<Text> = IndexSet::new(alloc);
    'thing: for thing in things {
        let name = thing.name();
        if !seen.insert(name.text.copy(alloc)?)? {
            out.push(Failure::at(alloc, name)?)?;
        }
    }
    Ok(())
}

/// Where names are declared.
#[derive(Clone, Copy, Debug)]
pub(crate) enum Slot {
    /// Within the enumeration with this number.
    Constant(usize),
    Parameter,
    Declaration,
    /// Among the positions of this form.
    Position(Form),
}

impl Slot {
    /// What the name with this number stands for.
    fn meaning(self, number: usize) -> Meaning
        ensures { result ≡ meaning_at self number }
    {
        match self {
            Slot::Constant(of) => Meaning::Constant(of, number),
            Slot::Parameter => Meaning::Parameter(number),
            Slot::Declaration => Meaning::Declaration(number),
            Slot::Position(form) => Meaning::Position(form, number),
        }
    }
}

/// What declares a name.
pub trait HasName {
    ghost use Rattle.sy_lex.specs.declared.written.Written.{Written as Token};

    /// The name.
    ghost own_name: { Self → Token };

    fn name(&self) -> &Written
        ensures { result.now ≡ own_name self.now };
}

impl HasName for Written {
    ghost own_name = { λ t. t };

    fn name(&self) -> &Written {
        self
    }
}

impl HasName for AttrTree {
    ghost own_name = { λ t. t.name };

    fn name(&self) -> &Written {
        &self.name
    }
}

impl HasName for ParamTree {
    ghost own_name = { λ t. t.name };

    fn name(&self) -> &Written {
        &self.name
    }
}

impl HasName for DeclTree {
    ghost own_name = { λ t. t.name };

    fn name(&self) -> &Written {
        &self.name
    }
}

impl HasName for ObligTree {
    ghost own_name = { λ t. t.name };

    fn name(&self) -> &Written {
        &self.name
    }
}

impl HasName for GiveTree {
    ghost own_name = { λ t. t.name };

    fn name(&self) -> &Written {
        &self.name
    }
}

impl HasName for PowerTree {
    ghost own_name = { λ t. t.name };

    fn name(&self) -> &Written {
        &self.name
    }
}

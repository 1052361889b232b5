ghost use Rattle.std.specs.Prelude.{◌≡◌, map, IfOk};
ghost use Rattle.sy_domain.specs.Names.{Table, meaning_in};
ghost use Rattle.sy_domain.specs.Ontologies.{domain_of, sort_named};
ghost use Rattle.sy_scope.specs.Scopes as scopes;
ghost use Rattle.sy_scope.specs.Scopes.{declaration_sort, meaning_of, parameter_sort, things_of};

use std::alloc::Global;
use std::marker::Model;
use sy_base::{List, Memory, Text};
use sy_domain::{Meaning, Member, Ontology, Sort, TypeKind};
use sy_spec::{DeclTree, ParamTree, SpecTree};
use sy_tree::PathTree;
use sy_words::Form;

/// The types of a specification, and the sorts of its parameters and declarations.
#[derive(Drop)]
pub struct Scope {
    ontology: Ontology,
    /// By the parameter's number.
    parameters: List<Sort>,
    /// By the declaration's number.
    declarations: List<Sort>,
}

impl Model for Scope {
    ghost use Rattle.sy_scope.specs.Scopes.{Things};

    ghost Value = { Things };

    ghost view = { λ s. record {
      domain = s.ontology;
      parameters = s.parameters;
      declarations = s.declarations;
    } };
}

/// The sorts of parameters.
fn parameter_sorts(
    alloc: Global,
    ontology: &Ontology,
    things: &[ParamTree],
) -> Result<List<Sort>, Memory>
    ensures { IfOk result (λ sorts. sorts ≡ map (parameter_sort ontology.now.table) things.now) }
{
    let mut sorts = List::new(alloc);
    'thing: for thing in things {
        sorts.push(ontology.sort(&thing.type_name.text))?;
    }
    Ok(sorts)
}

/// The sorts of declarations.
fn declaration_sorts(
    alloc: Global,
    ontology: &Ontology,
    things: &[DeclTree],
) -> Result<List<Sort>, Memory>
    ensures { IfOk result (λ sorts. sorts ≡ map (declaration_sort ontology.now.table) things.now) }
{
    let mut sorts = List::new(alloc);
    'thing: for thing in things {
        sorts.push(ontology.sort(&thing.type_name.text))?;
    }
    Ok(sorts)
}

impl Scope {
    /// The things of the specification that has these types.
    pub fn of(alloc: Global, ontology: Ontology, tree: &SpecTree) -> Result<Scope, Memory>
        requires { ontology ≡ domain_of tree.now }
        ensures { IfOk result (λ scope. scope ≡ things_of tree.now) }
    {
        let parameters = parameter_sorts(alloc, &ontology, tree.contract.parameters.items())?;
        let declarations = declaration_sorts(alloc, &ontology, tree.contract.declarations.items())?;
        Ok(Scope {
            ontology,
            parameters,
            declarations,
        })
    }

    /// The types.
    pub fn ontology(&self) -> &Ontology
        ensures { result.now ≡ self.now.domain }
    {
        &self.ontology
    }

    /// The sorts of the parameters, by number.
    pub fn parameters(&self) -> &[Sort]
        ensures { result.now ≡ self.now.parameters }
    {
        self.parameters.items()
    }

    /// The sorts of the declarations, by number.
    pub fn declarations(&self) -> &[Sort]
        ensures { result.now ≡ self.now.declarations }
    {
        self.declarations.items()
    }

    /// What a name stands for.
    pub fn meaning(&self, name: &Text) -> Option<Meaning>
        ensures { result ≡ meaning_of self.now name.now }
    {
        self.ontology.meaning(name)
    }

    /// The sort of a parameter, a constant or one of so many first declarations.
    pub fn thing(&self, visible: usize, name: &Text) -> Option<Sort>
        ensures { result ≡ scopes.thing_sort self.now visible name.now }
    {
        match self.meaning(name) {
            Some(Meaning::Parameter(number)) => self.parameters.items().get(number).copied(),
            Some(Meaning::Constant(of, _)) => Some(Sort::Declared(of)),
            Some(Meaning::Declaration(number)) if number < visible => {
                self.declarations.items().get(number).copied()
            }
            _ => None,
        }
    }

    /// The sort of an attribute of the things of a sort, where it has one value.
    pub fn plain(&self, sort: Sort, name: &Text) -> Option<Sort>
        ensures { result ≡ scopes.plain_sort self.now sort name.now }
    {
        match self.ontology.member(sort, name) {
            Some(Member { env: false, sort }) => Some(sort),
            _ => None,
        }
    }

    /// The sort of an attribute of the things of a sort, where each happening gives its value.
    pub fn env(&self, sort: Sort, name: &Text) -> Option<Sort>
        ensures { result ≡ scopes.env_sort self.now sort name.now }
    {
        match self.ontology.member(sort, name) {
            Some(Member { env: true, sort }) => Some(sort),
            _ => None,
        }
    }

    /// The sort of what a path stands for.
    pub fn path(&self, visible: usize, path: &PathTree) -> Option<Sort>
        ensures { result ≡ scopes.path_sort self.now visible path.now }
    {
        match path {
            PathTree::Name(name) => self.thing(visible, &name.text),
            PathTree::Attribute(name, attribute) => {
                let sort = self.thing(visible, &name.text)?;
                self.plain(sort, &attribute.text)
            }
            PathTree::Inner(name, attribute, inner) => {
                let sort = self.thing(visible, &name.text)?;
                let sort = self.plain(sort, &attribute.text)?;
                self.plain(sort, &inner.text)
            }
        }
    }

    /// The kind of the type of a sort: none for a basic type.
    pub fn kind(&self, sort: Sort) -> Option<TypeKind>
        ensures { result ≡ scopes.kind_of_sort self.now sort }
    {
        match sort {
            Sort::Declared(number) => self.ontology.kind(number),
            _ => None,
        }
    }

    /// Whether a thing of the sort is one value.
    pub fn is_value(&self, sort: Sort) -> bool
        ensures { result ≡ scopes.is_value self.now sort }
    {
        match sort {
            Sort::Declared(number) => {
                matches!(self.ontology.kind(number), Some(TypeKind::Enumeration))
            }
            _ => true,
        }
    }

    /// The type of the declared event that a name stands for.
    pub fn event(&self, name: &Text) -> Option<Sort>
        ensures { result ≡ scopes.event_sort self.now name.now }
    {
        let Some(Meaning::Declaration(number)) = self.meaning(name) else {
            return None;
        };
        let sort = self.declarations.items().get(number).copied()?;
        match self.kind(sort) {
            Some(TypeKind::Event) => Some(sort),
            _ => None,
        }
    }

    /// The form of the position that a name stands for.
    pub fn form(&self, name: &Text) -> Option<Form>
        ensures { result ≡ scopes.form_named self.now name.now }
    {
        match self.meaning(name) {
            Some(Meaning::Position(form, _)) => Some(form),
            _ => None,
        }
    }
}

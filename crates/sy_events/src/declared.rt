ghost use Rattle.std.specs.Prelude.{◌≡◌, IfOk, option_map, option_copied, slice_get};
ghost use Rattle.sy_events.specs.Declarations as declared;
ghost use Rattle.sy_events.specs.Events.{number_at};

use crate::enumerations::{all_choices, numbers_of_choices};
use crate::events::{all_events, all_kinds, numbers_of_events};
use indexmap::IndexMap;
use std::alloc::Global;
use std::marker::Model;
use sy_base::{List, Memory, Text};
use sy_core::{Choices, EventDecl, ValueKind};
use sy_scope::Scope;
use sy_spec::SpecTree;

/// The place and the kind of an attribute, by its name.
pub fn attribute(kinds: &IndexMap<Text, ValueKind>, name: &Text) -> Option<(usize, ValueKind)>
    ensures { result ≡ declared.kind_at kinds.now.entries name.now }
{
    let (place, _, kind) = kinds.get_full(name)?;
    Some((place, *kind))
}

/// What a specification declares for its deed: the events and the enumerations, and how all else
/// names them.
#[derive(Drop)]
pub struct Declared {
    events: List<EventDecl>,
    choices: List<Choices>,
    /// By the event's number: the kinds of its attributes, by their names.
    kinds: Vec<IndexMap<Text, ValueKind>>,
    /// By the number of a declaration.
    event_numbers: List<Option<u32>>,
    /// By the number of a type.
    choice_numbers: List<Option<u32>>,
}

impl Model for Declared {
    ghost use Rattle.std.specs.Prelude.{map};
    ghost use Rattle.sy_events.specs.Declarations.{Declarations};

    ghost Value = { Declarations };

    ghost view = { λ d. record {
      events = d.events;
      choices = d.choices;
      kinds = map (λ m. m.entries) d.kinds.items;
      event_numbers = d.event_numbers;
      choice_numbers = d.choice_numbers;
    } };
}

impl Declared {
    /// What a specification declares.
    pub fn of(alloc: Global, scope: &Scope, tree: &SpecTree) -> Result<Declared, Memory>
        ensures { IfOk result (λ d. d ≡ declared.declared_by scope.now tree.now) }
    {
        let declarations = tree.contract.declarations.items();
        let choices = all_choices(alloc, tree.domain.types.items())?;
        let choice_numbers = numbers_of_choices(alloc, tree.domain.types.items())?;
        let events = all_events(alloc, scope, choice_numbers.items(), declarations)?;
        let kinds = all_kinds(alloc, scope, choice_numbers.items(), declarations)?;
        let event_numbers = numbers_of_events(alloc, scope, declarations)?;
        Ok(Declared {
            events,
            choices,
            kinds,
            event_numbers,
            choice_numbers,
        })
    }

    /// The number of the event that is declared by the declaration with this number.
    pub fn event(&self, declaration: usize) -> Option<u32>
        ensures { result ≡ number_at self.now.event_numbers declaration }
    {
        match self.event_numbers.items().get(declaration) {
            Some(number) => *number,
            None => None,
        }
    }

    /// The number of the enumeration that is the type with this number.
    pub fn enumeration(&self, of: usize) -> Option<u32>
        ensures { result ≡ number_at self.now.choice_numbers of }
    {
        match self.choice_numbers.items().get(of) {
            Some(number) => *number,
            None => None,
        }
    }

    /// The attributes of the event with a number: their kinds, by their names.
    pub fn kinds(&self, event: u32) -> Option<&IndexMap<Text, ValueKind>>
        ensures { option_map (λ m. m.entries) (option_copied result) ≡ slice_get self.now.kinds event }
    {
        self.kinds.get(event as usize)
    }

    /// The enumerations.
    pub fn choices(&self) -> &[Choices]
        ensures { result.now ≡ self.now.choices }
    {
        self.choices.items()
    }

    /// The events and the enumerations, to be kept.
    pub fn into_parts(self) -> (List<EventDecl>, List<Choices>)
        ensures { result ≡ (self.events, self.choices) }
    {
        (self.events, self.choices)
    }
}

ghost use Rattle.std.specs.Prelude.{◌≡◌, map, IfOk};
ghost use Rattle.sy_lower.specs.Events as events;
ghost use Rattle.sy_lower.specs.Parts.{all_there};
ghost use Rattle.sy_scope.specs.Scopes.{meaning_of};

use crate::Lowering;
use indexmap::IndexMap;
use sy_base::{List, Memory, Text};
use sy_core::{Ev, Guard, Situation, StateOf, Target, Value, ValueKind, state_named};
use sy_domain::Meaning;
use sy_events::attribute;
use sy_names::{is_contract_state, is_state_of};
use sy_terms::item_of_rhs;
use sy_tree::{EventTree, GuardTree, RhsTree, SituationTree, TargetTree};
use sy_typing::{event_target, position_if};

impl Lowering<'_> {
    /// The number of the declared event that a name stands for.
    fn event_number(&self, name: &Text) -> Option<u32>
        ensures { result ≡ events.event_number self.now.declared (meaning_of self.now.things name.now) }
    {
        match self.scope.meaning(name) {
            Some(Meaning::Declaration(number)) => self.declared.event(number),
            _ => None,
        }
    }

    /// What the attribute of a guard is compared with.
    fn guard_value(&self, rhs: &RhsTree, kind: ValueKind) -> Result<Option<Value>, Memory>
        ensures { IfOk result (λ value. value ≡ events.guard_value self.now rhs.now kind) }
    {
        let item = item_of_rhs(self.alloc, self.scope, self.environment, rhs)?;
        self.value_as(kind, item)
    }

    /// A guard of the attribute at a place, of a kind.
    fn guard_at(
        &self,
        guard: &GuardTree,
        place: usize,
        kind: ValueKind,
    ) -> Result<Option<Guard>, Memory>
        ensures { IfOk result (λ found. found ≡ events.guard_at self.now guard.now (place, kind)) }
    {
        let attr = u32::try_from(place).map_err(|_| Memory)?;
        match self.guard_value(&guard.value, kind)? {
            Some(value) => Ok(Some(Guard {
                attr,
                cmp: guard.cmp.cmp,
                value,
            })),
            None => Ok(None),
        }
    }

    /// A guard of an event whose attributes have these kinds.
    fn guard(
        &self,
        kinds: &IndexMap<Text, ValueKind>,
        guard: &GuardTree,
    ) -> Result<Option<Guard>, Memory>
        ensures { IfOk result (λ found. found ≡ events.guard_of self.now kinds.now.entries guard.now) }
    {
        match attribute(kinds, &guard.name.text) {
            Some((place, kind)) => self.guard_at(guard, place, kind),
            None => Ok(None),
        }
    }

    /// The guards of an event whose attributes have these kinds, where each is one.
    fn guards(
        &self,
        kinds: &IndexMap<Text, ValueKind>,
        guards: &[GuardTree],
    ) -> Result<Option<List<Guard>>, Memory>
        ensures { IfOk result (λ found. found
            ≡ all_there (map (events.guard_of self.now kinds.now.entries) guards.now)) }
    {
        let mut list = List::new(self.alloc);
        'guard: for guard in guards {
            match self.guard(kinds, guard)? {
                Some(guard) => list.push(guard)?,
                None => return Ok(None),
            }
        }
        Ok(Some(list))
    }

    /// The event with a number, under guards.
    fn outer(&self, guards: &[GuardTree], event: u32) -> Result<Option<Ev>, Memory>
        ensures { IfOk result (λ found. found ≡ events.outer self.now guards.now event) }
    {
        let Some(kinds) = self.declared.kinds(event) else {
            return Ok(None);
        };
        match self.guards(kinds, guards)? {
            Some(list) => Ok(Some(Ev::Outer(event, list))),
            None => Ok(None),
        }
    }

    /// An event.
    pub(crate) fn event(&self, event: &EventTree) -> Result<Option<Ev>, Memory>
        ensures { IfOk result (λ found. found ≡ events.event_of self.now event.now) }
    {
        match event {
            EventTree::Declared(name, guards) => match self.event_number(&name.text) {
                Some(number) => self.outer(guards.items(), number),
                None => Ok(None),
            },
            EventTree::Internal(kind, _, target) => {
                let ontology = self.scope.ontology();
                match event_target(ontology, self.contract, *kind, target) {
                    Some(target) => Ok(Some(Ev::Inner(*kind, target))),
                    None => Ok(None),
                }
            }
        }
    }

    /// The target of a situation: one that can be in the state.
    fn state_target(&self, state: StateOf, target: &TargetTree) -> Option<Target>
        ensures { result ≡ events.state_target self.now.things.domain.table self.now.contract state target.now }
    {
        match target {
            TargetTree::Named(name) => match self.scope.meaning(&name.text) {
                Some(Meaning::Position(form, index)) => {
                    position_if(self.contract, form, index, is_state_of(form, state))
                }
                _ => None,
            },
            TargetTree::Contract(_) if is_contract_state(state) => Some(Target::Contract),
            TargetTree::Contract(_) => None,
        }
    }

    /// What is said of a state.
    pub(crate) fn situation(&self, tree: &SituationTree) -> Option<Situation>
        ensures { result ≡ events.situation_of self.now tree.now }
    {
        let state = state_named(tree.state.text.bytes())?;
        let target = self.state_target(state, &tree.target)?;
        Some(Situation {
            target,
            equal: tree.equal,
            state,
        })
    }
}

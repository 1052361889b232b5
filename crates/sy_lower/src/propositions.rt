ghost use Rattle.std.specs.Prelude.{◌≡◌, ◌++◌, map, IfOk, OnOk};
ghost use Rattle.sy_lower.specs.Propositions as props;
ghost use Rattle.sy_lower.specs.Propositions.{lowered};

use crate::Lowering;
use sqlite_items::{Boxed, Items};
use sy_base::Memory;
use sy_core::{DateTerm, Ev, Prop};
use sy_terms::comparison_holds;
use sy_tree::{DateTree, EventTree, PropTree, SituationTree};
use sy_typing::prop_outline;

impl Lowering<'_> {
    /// An event and a date, where both are there.
    fn with_date(
        &self,
        event: &EventTree,
        date: &DateTree,
    ) -> Result<Option<(Ev, DateTerm)>, Memory>
        ensures { IfOk result (λ found. found ≡ props.pair (props.event self.now event.now) (props.date self.now date.now)) }
    {
        let Some(event) = self.event(event)? else {
            return Ok(None);
        };
        match self.date(date)? {
            Some(date) => Ok(Some((event, date))),
            None => Ok(None),
        }
    }

    /// Two dates, where both are there.
    fn dates(&self, from: &DateTree, to: &DateTree) -> Result<Option<(DateTerm, DateTerm)>, Memory>
        ensures { IfOk result (λ found. found ≡ props.pair (props.date self.now from.now) (props.date self.now to.now)) }
    {
        let Some(from) = self.date(from)? else {
            return Ok(None);
        };
        match self.date(to)? {
            Some(to) => Ok(Some((from, to))),
            None => Ok(None),
        }
    }

    fn happens(&self, event: &EventTree) -> Result<Option<Prop>, Memory>
        ensures { IfOk result (λ found. found ≡ props.happening self.now event.now) }
    {
        Ok(self.event(event)?.map(Prop::Happens))
    }

    fn before(&self, event: &EventTree, to: &DateTree) -> Result<Option<Prop>, Memory>
        ensures { IfOk result (λ found. found ≡ props.before self.now event.now to.now) }
    {
        match self.with_date(event, to)? {
            Some((event, to)) => Ok(Some(Prop::Before(event, to))),
            None => Ok(None),
        }
    }

    fn after(&self, event: &EventTree, from: &DateTree) -> Result<Option<Prop>, Memory>
        ensures { IfOk result (λ found. found ≡ props.after self.now event.now from.now) }
    {
        match self.with_date(event, from)? {
            Some((event, from)) => Ok(Some(Prop::After(event, from))),
            None => Ok(None),
        }
    }

    fn within(
        &self,
        event: &EventTree,
        from: &DateTree,
        to: &DateTree,
    ) -> Result<Option<Prop>, Memory>
        ensures { IfOk result (λ found. found ≡ props.within self.now event.now from.now to.now) }
    {
        let Some(event) = self.event(event)? else {
            return Ok(None);
        };
        match self.dates(from, to)? {
            Some((from, to)) => Ok(Some(Prop::Within(event, from, to))),
            None => Ok(None),
        }
    }

    fn occurs(
        &self,
        situation: &SituationTree,
        from: &DateTree,
        to: &DateTree,
    ) -> Result<Option<Prop>, Memory>
        ensures { IfOk result (λ found. found ≡ props.occurs self.now situation.now from.now to.now) }
    {
        let Some(situation) = self.situation(situation) else {
            return Ok(None);
        };
        match self.dates(from, to)? {
            Some((from, to)) => Ok(Some(Prop::Occurs(situation, from, to))),
            None => Ok(None),
        }
    }

    /// The proposition, or else that one of the events happens that the atom names.
    fn or_events(&self, atom: &PropTree, found: Option<Prop>) -> Result<Prop, Memory>
        ensures { IfOk result (λ prop. prop ≡ props.atom_or (props.events_of self.now atom.now) found) }
    {
        match found {
            Some(prop) => Ok(prop),
            None => {
                let ontology = self.scope.ontology();
                prop_outline(self.alloc, ontology, self.contract, atom)
            }
        }
    }

    /// Propositions.
    #[cycle(lowering)]
    fn each(&self, parts: &[PropTree]) -> Result<Items<Prop>, Memory>
        ensures { IfOk result (λ list. list ≡ map (lowered self.now) parts.now) }
    {
        let mut list = Items::new(self.alloc);
        'part: for part in parts {
            list.push(self.proposition(part)?)?;
        }
        Ok(list)
    }

    /// A proposition.
    #[cycle(lowering)]
    pub fn proposition(&self, tree: &PropTree) -> Result<Prop, Memory>
        ensures { IfOk result (λ prop. prop ≡ lowered self.now tree.now) }
    {
        match tree {
            PropTree::Const(value, _) => Ok(Prop::Const(*value)),
            PropTree::Not(part, _) => {
                let part = self.proposition(part.get())?;
                Ok(Prop::Not(Boxed::new(self.alloc, part)?))
            }
            PropTree::All(parts, _) => Ok(Prop::All(self.each(parts.as_slice())?)),
            PropTree::Any(parts, _) => Ok(Prop::Any(self.each(parts.as_slice())?)),
            PropTree::Compare(left, cmp, right, _) => {
                let (scope, environment) = (self.scope, self.environment);
                let truth = comparison_holds(self.alloc, scope, environment, left, cmp, right)?;
                Ok(Prop::Const(truth))
            }
            PropTree::Happens(event, _) => self.or_events(tree, self.happens(event)?),
            PropTree::Before(event, to, _) => self.or_events(tree, self.before(event, to)?),
            PropTree::After(event, from, _) => self.or_events(tree, self.after(event, from)?),
            PropTree::Within(event, from, to, _) => {
                self.or_events(tree, self.within(event, from, to)?)
            }
            PropTree::Occurs(situation, from, to, _) => {
                self.or_events(tree, self.occurs(situation, from, to)?)
            }
            PropTree::Holds(situation, _) => {
                self.or_events(tree, self.situation(situation).map(Prop::Holds))
            }
        }
    }
}

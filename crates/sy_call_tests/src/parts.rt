use std::test::Fail;
use sy_base::{List, Text, TimeUnit};
use sy_core::{Act, Deed, Goal, Position, Prop, Target};
use sy_parts::has_few_parts;
use sy_words::{Form, Verb};

/// A deed of one power, which suspends the contract.
#[test]
fn a_power_has_few_parts(rt: HostRuntime) -> Result<(), Fail> {
    let alloc = rt.alloc();
    let mut positions = List::new(alloc);
    positions.push(Position {
        name: Text::new(alloc, b"pHold")?,
        form: Form::Power,
        first: Text::new(alloc, b"a")?,
        second: Text::new(alloc, b"b")?,
        trigger: Prop::Const(true),
        antecedent: Prop::Const(true),
        goal: Goal::Act(Act {
            verb: Verb::Suspends,
            target: Target::Contract,
        }),
    })?;
    let deed = Deed {
        unit: TimeUnit::Day,
        start: 0,
        events: List::new(alloc),
        choices: List::new(alloc),
        positions,
        posts: List::new(alloc),
        order: List::new(alloc),
    };
    assert!(rt; has_few_parts(&deed));
    Ok(())
}

//! The rows of the machines, worked by hand: for each event one line where it happens, then lines in
//! which one of its conditions fails.
use crate::{ContractInputs, Fired, Inputs, fire, fire_contract, next_contract, next_state};
use std::process::Abort;
use sy_core::StateOf::{
    Create, Discharge, Fulfillment, InEffect, Null, SuccessfulTermination, Suspension,
    UnsuccessfulTermination, Violation,
};
use sy_core::{StateOf, Verdict};
use sy_words::Form::{Obligation, Power, Surviving};
use sy_words::Kind::{
    Activated, Completed, Discharged, Exerted, Expired, Fulfilled, Resumed, Suspended, Terminated,
    Triggered, Violated,
};
use sy_words::{Form, Kind};

/// A form, a state, inputs, and whether the event happens.
type Row = (Form, StateOf, Inputs, bool);

/// Nothing is given, under a contract in effect.
const NOTHING: Inputs = Inputs {
    trigger: Verdict::Open,
    antecedent: Verdict::Open,
    final_antecedent: true,
    consequent: Verdict::Open,
    asked: false,
    contract: InEffect,
    on_contract: false,
    triggers: false,
    resumes: false,
    suspends: false,
    discharges: false,
    terminates: false,
    ends: false,
    fired: Fired::NONE,
};

/// The inputs under a contract in the state.
fn under(contract: StateOf, inputs: Inputs) -> Inputs {
    Inputs { contract, ..inputs }
}

/// The inputs after an event of the kind at the point.
fn after(kind: Kind, inputs: Inputs) -> Inputs {
    let mut fired = inputs.fired;
    fired.set(kind);
    Inputs { fired, ..inputs }
}

fn try_rows(rt: &impl Abort, kind: Kind, rows: &[Row]) {
    for (form, state, inputs, want) in rows {
        let happens = fire(kind, *form, *state, inputs);
        assert_eq!(rt; happens, *want, "{kind:?} {form:?} {state:?} {inputs:?}");
    }
}

#[test]
fn powers_are_exerted(rt: HostRuntime) {
    let asked = Inputs {
        asked: true,
        ..NOTHING
    };
    let on_contract = Inputs {
        on_contract: true,
        ..asked
    };
    let rows = [
        (Power, InEffect, asked, true),
        (Power, InEffect, under(Suspension, on_contract), true),
        (Obligation, InEffect, asked, false),
        (Surviving, InEffect, asked, false),
        (Power, InEffect, NOTHING, false),
        (Power, Create, asked, false),
        (Power, Suspension, asked, false),
        (Power, InEffect, under(Suspension, asked), false),
        (
            Power,
            InEffect,
            under(SuccessfulTermination, on_contract),
            false,
        ),
    ];
    try_rows(&rt, Exerted, &rows);
}

#[test]
fn positions_are_triggered(rt: HostRuntime) {
    let holds = Inputs {
        trigger: Verdict::True,
        ..NOTHING
    };
    let fails = Inputs {
        trigger: Verdict::False,
        ..NOTHING
    };
    let triggers = Inputs {
        triggers: true,
        ..NOTHING
    };
    let rows = [
        (Obligation, Null, holds, true),
        (Power, Null, holds, true),
        (Obligation, Null, triggers, true),
        (Surviving, Null, under(Suspension, holds), true),
        (Obligation, Null, under(Suspension, holds), false),
        (Power, Null, under(Suspension, triggers), false),
        (Obligation, Create, holds, false),
        (Obligation, Fulfillment, triggers, false),
        (Obligation, Null, NOTHING, false),
        (Obligation, Null, fails, false),
    ];
    try_rows(&rt, Triggered, &rows);
}

#[test]
fn positions_are_activated(rt: HostRuntime) {
    let holds = Inputs {
        antecedent: Verdict::True,
        ..NOTHING
    };
    let fails = Inputs {
        antecedent: Verdict::False,
        ..NOTHING
    };
    let rows = [
        (Obligation, Create, holds, true),
        (Power, Create, holds, true),
        (Obligation, Null, after(Triggered, holds), true),
        (Surviving, Create, under(Suspension, holds), true),
        (Obligation, Create, under(Suspension, holds), false),
        (Obligation, Null, holds, false),
        (Obligation, InEffect, holds, false),
        (Obligation, Create, NOTHING, false),
        (Obligation, Create, fails, false),
    ];
    try_rows(&rt, Activated, &rows);
}

#[test]
fn positions_expire(rt: HostRuntime) {
    let fails = Inputs {
        antecedent: Verdict::False,
        ..NOTHING
    };
    let asks_for_state = Inputs {
        final_antecedent: false,
        ..fails
    };
    let holds = Inputs {
        antecedent: Verdict::True,
        ..NOTHING
    };
    let rows = [
        (Obligation, Create, fails, true),
        (Power, Create, fails, true),
        (Obligation, Null, after(Triggered, fails), true),
        (Surviving, Create, under(Suspension, fails), true),
        (Obligation, Create, under(Suspension, fails), false),
        (Obligation, Null, fails, false),
        (Obligation, InEffect, fails, false),
        (Obligation, Create, asks_for_state, false),
        (Obligation, Create, NOTHING, false),
        (Obligation, Create, holds, false),
    ];
    try_rows(&rt, Expired, &rows);
}

#[test]
fn positions_are_suspended_and_resumed(rt: HostRuntime) {
    let suspends = Inputs {
        suspends: true,
        ..NOTHING
    };
    let resumes = Inputs {
        resumes: true,
        ..NOTHING
    };
    let suspended = [
        (Obligation, InEffect, suspends, true),
        (Obligation, InEffect, under(Suspension, suspends), true),
        (Obligation, Create, after(Activated, suspends), true),
        (Power, Suspension, after(Resumed, suspends), true),
        (Obligation, Create, suspends, false),
        (Obligation, Suspension, suspends, false),
        (Obligation, InEffect, NOTHING, false),
        (Power, InEffect, after(Exerted, suspends), false),
    ];
    let resumed = [
        (Obligation, Suspension, resumes, true),
        (Power, Suspension, under(Suspension, resumes), true),
        (Obligation, InEffect, resumes, false),
        (Obligation, Suspension, NOTHING, false),
    ];
    try_rows(&rt, Suspended, &suspended);
    try_rows(&rt, Resumed, &resumed);
}

/// With the verdict by which a duty that remains in force ends, and with the opposite.
fn try_ends_of_duties(rt: &impl Abort, kind: Kind, settles: Inputs, opposite: Inputs) {
    let rows = [
        (Obligation, InEffect, settles, true),
        (Obligation, Create, after(Activated, settles), true),
        (Obligation, Suspension, after(Resumed, settles), true),
        (Surviving, InEffect, under(Suspension, settles), true),
        (Power, InEffect, settles, false),
        (Obligation, InEffect, under(Suspension, settles), false),
        (Obligation, Create, settles, false),
        (Obligation, Suspension, settles, false),
        (Obligation, InEffect, after(Suspended, settles), false),
        (Obligation, InEffect, after(Discharged, settles), false),
        (Obligation, InEffect, after(Terminated, settles), false),
        (Obligation, InEffect, NOTHING, false),
        (Obligation, InEffect, opposite, false),
    ];
    try_rows(rt, kind, &rows);
}

#[test]
fn obligations_are_fulfilled_or_violated(rt: HostRuntime) {
    let holds = Inputs {
        consequent: Verdict::True,
        ..NOTHING
    };
    let fails = Inputs {
        consequent: Verdict::False,
        ..NOTHING
    };
    try_ends_of_duties(&rt, Fulfilled, holds, fails);
    try_ends_of_duties(&rt, Violated, fails, holds);
}

#[test]
fn obligations_are_discharged(rt: HostRuntime) {
    let discharges = Inputs {
        discharges: true,
        ..NOTHING
    };
    let rows = [
        (Obligation, Create, discharges, true),
        (Surviving, InEffect, discharges, true),
        (Obligation, Suspension, under(Suspension, discharges), true),
        (Obligation, Null, after(Triggered, discharges), true),
        (Power, InEffect, discharges, false),
        (Obligation, Null, discharges, false),
        (Obligation, Violation, discharges, false),
        (Obligation, InEffect, NOTHING, false),
    ];
    try_rows(&rt, Discharged, &rows);
}

#[test]
fn positions_are_terminated_and_never_completed(rt: HostRuntime) {
    let terminates = Inputs {
        terminates: true,
        ..NOTHING
    };
    let ends = Inputs {
        ends: true,
        ..NOTHING
    };
    let terminated = [
        (Obligation, Create, terminates, true),
        (Surviving, InEffect, terminates, true),
        (Power, Suspension, under(Suspension, terminates), true),
        (Obligation, Null, after(Triggered, terminates), true),
        (Obligation, InEffect, ends, true),
        (Power, InEffect, ends, true),
        (Obligation, Null, terminates, false),
        (Obligation, Discharge, terminates, false),
        (Obligation, InEffect, NOTHING, false),
        (Surviving, InEffect, ends, false),
        (Power, InEffect, after(Exerted, terminates), false),
    ];
    try_rows(&rt, Terminated, &terminated);
    try_rows(&rt, Completed, &[(Obligation, InEffect, ends, false)]);
}

/// A kind, the contract's state, and what is given: that a power resumes, suspends or terminates it,
/// and that it is complete. Then whether the event happens.
#[test]
fn contracts_change(rt: HostRuntime) {
    let rows = [
        (Resumed, Suspension, (true, false, false, false), true),
        (Resumed, InEffect, (true, false, false, false), false),
        (Resumed, Suspension, (false, true, true, true), false),
        (Suspended, InEffect, (false, true, false, false), true),
        (Suspended, Suspension, (false, true, false, false), false),
        (Suspended, InEffect, (true, false, true, true), false),
        (Terminated, InEffect, (false, false, true, false), true),
        (Terminated, Suspension, (false, false, true, false), true),
        (Terminated, InEffect, (true, true, false, true), false),
        (Completed, InEffect, (false, false, false, true), true),
        (Completed, Suspension, (false, false, false, true), false),
        (Completed, InEffect, (false, true, false, true), false),
        (Completed, InEffect, (false, false, true, true), false),
        (Completed, InEffect, (false, false, false, false), false),
        (Exerted, InEffect, (true, true, true, true), false),
        (Triggered, InEffect, (true, true, true, true), false),
        (Activated, InEffect, (true, true, true, true), false),
        (Fulfilled, InEffect, (true, true, true, true), false),
        (Violated, InEffect, (true, true, true, true), false),
        (Expired, InEffect, (true, true, true, true), false),
        (Discharged, InEffect, (true, true, true, true), false),
    ];
    for (kind, state, (resumes, suspends, terminates, complete), want) in rows {
        let inputs = ContractInputs {
            resumes,
            suspends,
            terminates,
            complete,
        };
        let happens = fire_contract(kind, state, &inputs);
        assert_eq!(rt; happens, want, "{kind:?} {state:?} {inputs:?}");
    }
}

fn fired(kinds: [Kind; 2]) -> Fired {
    let [first, second] = kinds;
    let mut fired = Fired::NONE;
    fired.set(first);
    fired.set(second);
    fired
}

/// The kinds of each row happen to a position of the form in the state, and then it has the other.
#[test]
fn kinds_give_states(rt: HostRuntime) {
    let rows = [
        (Power, InEffect, [Exerted; 2], SuccessfulTermination),
        (Obligation, Null, [Triggered; 2], Create),
        (Obligation, Create, [Activated; 2], InEffect),
        (Power, Suspension, [Resumed; 2], InEffect),
        (Power, InEffect, [Suspended; 2], Suspension),
        (Obligation, InEffect, [Fulfilled; 2], Fulfillment),
        (Surviving, InEffect, [Violated; 2], Violation),
        (Obligation, Create, [Expired; 2], Discharge),
        (Surviving, Create, [Expired; 2], Discharge),
        (Power, Create, [Expired; 2], UnsuccessfulTermination),
        (Obligation, InEffect, [Discharged; 2], Discharge),
        (Power, Create, [Terminated; 2], UnsuccessfulTermination),
        (Obligation, InEffect, [Exerted; 2], InEffect),
        (Power, InEffect, [Fulfilled; 2], InEffect),
        (Obligation, InEffect, [Completed; 2], InEffect),
        (Obligation, Null, [Triggered, Activated], InEffect),
        (Obligation, Null, [Activated, Triggered], InEffect),
        (Obligation, Null, [Triggered, Expired], Discharge),
        (Power, Null, [Triggered, Expired], UnsuccessfulTermination),
        (Obligation, Suspension, [Suspended, Resumed], Suspension),
        (Obligation, Create, [Activated, Fulfilled], Fulfillment),
        (Obligation, Create, [Activated, Violated], Violation),
        (Obligation, InEffect, [Suspended, Discharged], Discharge),
        (
            Obligation,
            InEffect,
            [Terminated, Discharged],
            UnsuccessfulTermination,
        ),
    ];
    for (form, state, kinds, want) in rows {
        let next = next_state(form, state, &fired(kinds));
        assert_eq!(rt; next, want, "{form:?} {state:?} {kinds:?}");
    }
    for form in [Obligation, Surviving, Power] {
        assert_eq!(rt; next_state(form, Violation, &Fired::NONE), Violation);
    }
}

/// The kinds of each row happen to the contract in the state, and then it has the other.
#[test]
fn kinds_give_contract_states(rt: HostRuntime) {
    let rows = [
        (Suspension, [Resumed; 2], InEffect),
        (InEffect, [Suspended; 2], Suspension),
        (InEffect, [Terminated; 2], UnsuccessfulTermination),
        (InEffect, [Completed; 2], SuccessfulTermination),
        (InEffect, [Violated; 2], InEffect),
        (InEffect, [Terminated, Suspended], UnsuccessfulTermination),
        (Suspension, [Terminated, Resumed], UnsuccessfulTermination),
        (InEffect, [Completed, Terminated], SuccessfulTermination),
    ];
    for (state, kinds, want) in rows {
        let next = next_contract(state, &fired(kinds));
        assert_eq!(rt; next, want, "{state:?} {kinds:?}");
    }
    assert_eq!(rt; next_contract(Suspension, &Fired::NONE), Suspension);
}

use crate::told::{Contract, is_told};
use std::alloc::Global;
use std::test::Fail;
use sy_run::Status;

/// A contract up to its one postcondition. It begins on 2024-05-31, so o is Null at the start of this
/// day alone.
const HEAD: &str = "\
Domain watched
Side isA Role;
Step isAn Event;
endDomain
Contract Watched() unit Day
Declarations
a: Side;
b: Side;
e: Step;
f: Step;
Postconditions
";

/// What stands behind the postcondition.
const TAIL: &str = ";
Obligations
o: O(a, b, true, happens(f));
endContract
";

/// What is reported of o and the contract before f happens.
const OWED: &str = "contract InEffect\nobligation o InEffect\n";

/// What is reported of them from then on.
const KEPT: &str = "contract SuccessfulTermination\nobligation o Fulfillment\n";

/// What is told before a report, its date, what it says of o and the contract, and the verdict.
type Row = (&'static str, &'static str, &'static str, &'static str);

/// A postcondition, and its verdicts.
#[derive(Clone, Copy)]
struct Watched {
    post: &'static str,
    rows: &'static [Row],
}

/// Propositions of each form, at the points at which their verdicts turn.
static WATCHED: [Watched; 14] = [
    Watched {
        post: "happensBefore(e, 2024-06-10)",
        rows: &[
            ("at 2024-06-10 happens e\n", "2024-06-10", OWED, "False"),
            ("at 2024-06-09 happens e\n", "2024-06-09", OWED, "True"),
            ("", "2024-06-09", OWED, "Open"),
            ("", "2024-06-10", OWED, "False"),
        ],
    },
    Watched {
        post: "happensBefore(e, time(f) + 5 Days)",
        rows: &[
            ("at 2024-06-03 happens e\n", "2024-06-03", OWED, "Open"),
            (
                "at 2024-06-03 happens e\nat 2024-06-20 happens f\n",
                "2024-06-20",
                KEPT,
                "True",
            ),
            ("at 2024-06-03 happens f\n", "2024-06-07", KEPT, "Open"),
            (
                "at 2024-06-03 happens f\nat 2024-06-07 happens e\n",
                "2024-06-07",
                KEPT,
                "True",
            ),
            (
                "at 2024-06-03 happens f\nat 2024-06-08 happens e\n",
                "2024-06-08",
                KEPT,
                "False",
            ),
        ],
    },
    Watched {
        post: "happensAfter(e, 2024-06-10)",
        rows: &[
            ("at 2024-06-10 happens e\n", "2024-09-08", OWED, "Open"),
            ("at 2024-06-11 happens e\n", "2024-06-11", OWED, "True"),
        ],
    },
    Watched {
        post: "happensWithin(e, 2024-06-10, 2024-06-12)",
        rows: &[
            ("at 2024-06-10 happens e\n", "2024-06-10", OWED, "True"),
            ("at 2024-06-11 happens e\n", "2024-06-11", OWED, "True"),
            ("at 2024-06-09 happens e\n", "2024-06-11", OWED, "Open"),
            ("at 2024-06-12 happens e\n", "2024-06-12", OWED, "False"),
        ],
    },
    Watched {
        post: "occurs(state(o) = Null, 2024-05-21, 2024-05-31)",
        rows: &[("", "2024-05-31", OWED, "True")],
    },
    Watched {
        post: "occurs(state(o) = Null, 2024-05-31, 2024-06-02)",
        rows: &[
            ("", "2024-05-31", OWED, "Open"),
            ("", "2024-06-01", OWED, "False"),
        ],
    },
    Watched {
        post: "occurs(state(o) != Null, 2024-06-01, 2024-06-03)",
        rows: &[
            ("", "2024-06-02", OWED, "Open"),
            ("", "2024-06-03", OWED, "True"),
        ],
    },
    Watched {
        post: "holds(state(o) = Null)",
        rows: &[
            ("", "2024-05-31", OWED, "True"),
            ("", "2024-06-01", OWED, "False"),
        ],
    },
    Watched {
        post: "holds(state(o) != Null)",
        rows: &[
            ("", "2024-05-31", OWED, "False"),
            ("", "2024-06-01", OWED, "True"),
        ],
    },
    Watched {
        post: "not happens(e)",
        rows: &[
            ("", "2024-05-31", OWED, "Open"),
            ("at 2024-05-31 happens e\n", "2024-05-31", OWED, "False"),
        ],
    },
    Watched {
        post: "happens(e) and false",
        rows: &[("", "2024-05-31", OWED, "False")],
    },
    Watched {
        post: "happens(e) and true",
        rows: &[
            ("", "2024-05-31", OWED, "Open"),
            ("at 2024-05-31 happens e\n", "2024-05-31", OWED, "True"),
        ],
    },
    Watched {
        post: "true or happens(e)",
        rows: &[("", "2024-05-31", OWED, "True")],
    },
    Watched {
        post: "false or happens(e)",
        rows: &[
            ("", "2024-05-31", OWED, "Open"),
            ("at 2024-05-31 happens e\n", "2024-05-31", OWED, "True"),
        ],
    },
];

/// Whether a postcondition has the verdicts.
fn has_verdicts(alloc: Global, watched: &Watched) -> Result<(), Fail> {
    let post = watched.post;
    let spec = format!(in alloc; "{HEAD}{post}{TAIL}")?;
    let contract = Contract {
        spec: spec.as_bytes(),
        bind: b"start 2024-05-31;",
    };
    for (happened, date, stands, verdict) in watched.rows {
        let log = format!(in alloc; "{happened}report {date}\n")?;
        let told = format!(in alloc; "report {date}\n{stands}post 1 {verdict}\nend\n")?;
        is_told(alloc, &contract, &log, Status::Done, &told)?;
    }
    Ok(())
}

#[test]
fn propositions_have_verdicts(rt: HostRuntime) -> Result<(), Fail> {
    for watched in &WATCHED {
        has_verdicts(rt.alloc(), watched)?;
    }
    Ok(())
}

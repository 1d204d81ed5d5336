//! Scans of the machine that tests each step: where they end, where they trap, and what they leave.

use crate::runs::{assert_same, trial, tried_output, tried_value};
use crate::worked::programs::Program;
use point_types::{Cause, IlType, Reading};
use scan_vm::{Scan, Trap, TrapKind, Trial};
use std::alloc::Global;
use std::fmt::Display;
use std::process::Abort;

/// A jump to its own address.
const BACKWARD: Program = Program {
    version: 1,
    vars: &[],
    tags: &[],
    code: &[33, 0, 0, 0],
};

/// An operator without a deferred value.
const UNDEFERRED: Program = Program {
    version: 1,
    vars: &[],
    tags: &[],
    code: &[17, 0],
};

/// `LD in / ST out / LD in_ok / ST c`
const PASSED_ON: Program = Program {
    version: 1,
    vars: &[("c", IlType::Bool, 0, 1)],
    tags: &[("out", true, IlType::Int), ("in", false, IlType::Int)],
    code: &[2, 0, 1, 7, 0, 0, 3, 0, 1, 6, 0, 0, 0],
};

/// Nine counted turns, in the version that has no counted jumps.
const OLD_TURNS: Program = Program {
    version: 1,
    vars: &[("z", IlType::Int, 0, 100)],
    tags: &[],
    code: &[
        5, 2, 0, 0, 0, 0, 0, 0, 0, 0, 6, 0, 0, 1, 0, 0, 12, 5, 2, 0, 0, 0, 0, 0, 0, 0, 7, 17, 12,
        5, 2, 0, 0, 0, 0, 0, 0, 0, 100, 28, 6, 0, 0, 38, 0, 9, 0, 13, 0,
    ],
};

/// A scan: its readings, its steps or its trap, and the variables and outputs after it.
struct Tried {
    readings: &'static [Reading],
    outcome: Result<Scan, Trap>,
    variables: &'static [i64],
    outputs: &'static [Option<i64>],
}

/// A program, its variables before the first scan, and its scans.
struct Case {
    program: Program,
    starts: &'static [i64],
    scans: &'static [Tried],
}

const BACKWARD_CASE: &Case = &Case {
    program: BACKWARD,
    starts: &[],
    scans: &[Tried {
        readings: &[],
        outcome: Err(Trap {
            at: 0,
            kind: TrapKind::Code,
        }),
        variables: &[],
        outputs: &[],
    }],
};

const UNDEFERRED_CASE: &Case = &Case {
    program: UNDEFERRED,
    starts: &[],
    scans: &[Tried {
        readings: &[],
        outcome: Err(Trap {
            at: 0,
            kind: TrapKind::Stack,
        }),
        variables: &[],
        outputs: &[],
    }],
};

const PASSED_ON_CASE: &Case = &Case {
    program: PASSED_ON,
    starts: &[1],
    scans: &[
        Tried {
            readings: &[
                Reading::Absent(Cause::NoBlock),
                Reading::Default(5, Cause::NoBlock),
            ],
            outcome: Ok(Scan { steps: 5 }),
            variables: &[0],
            outputs: &[Some(5)],
        },
        Tried {
            readings: &[Reading::Absent(Cause::NoBlock), Reading::Value(6)],
            outcome: Ok(Scan { steps: 5 }),
            variables: &[1],
            outputs: &[Some(6)],
        },
        Tried {
            readings: &[
                Reading::Absent(Cause::NoBlock),
                Reading::Absent(Cause::Inexact),
            ],
            outcome: Err(Trap {
                at: 0,
                kind: TrapKind::MissingPoint,
            }),
            variables: &[1],
            outputs: &[None],
        },
    ],
};

const OLD_TURNS_CASE: &Case = &Case {
    program: OLD_TURNS,
    starts: &[100],
    scans: &[Tried {
        readings: &[],
        outcome: Err(Trap {
            at: 10,
            kind: TrapKind::Code,
        }),
        variables: &[100],
        outputs: &[],
    }],
};

/// The variables and outputs of a trial, as far as there are two of them.
fn stands(rt: &impl Abort, trial: &Trial, variables: &[i64], outputs: &[Option<i64>]) {
    for i in 0..2 {
        assert_same(rt, &tried_value(trial, i), &variables.get(i).copied());
        let stored = outputs.get(i).copied().unwrap_or(None);
        assert_same(rt, &tried_output(trial, i), &stored);
    }
}

fn assert_scans(rt: &impl Abort, trial: &mut Trial, scans: &[Tried]) {
    for scan in scans {
        assert_same(rt, &trial.scan(scan.readings), &scan.outcome);
        stands(rt, trial, scan.variables, scan.outputs);
    }
}

fn assert_case(rt: &impl Abort, alloc: Global, case: &Case) {
    let mut trial = trial(rt, alloc, &case.program, case.starts);
    stands(rt, &trial, case.starts, &[]);
    assert_scans(rt, &mut trial, case.scans);
}

// Each case is passed on its own: in one table they take the prover much longer.
#[test]
fn ends_or_traps_where_it_should(rt: HostRuntime) {
    assert_case(&rt, rt.alloc(), BACKWARD_CASE);
    assert_case(&rt, rt.alloc(), UNDEFERRED_CASE);
    assert_case(&rt, rt.alloc(), PASSED_ON_CASE);
    assert_case(&rt, rt.alloc(), OLD_TURNS_CASE);
}

static KINDS: [(TrapKind, &str); 7] = [
    (TrapKind::WrongType, "Type"),
    (TrapKind::Overflow, "Overflow"),
    (TrapKind::ZeroDivisor, "ZeroDivisor"),
    (TrapKind::MissingPoint, "MissingPoint"),
    (TrapKind::Code, "Code"),
    (TrapKind::Stack, "Stack"),
    (TrapKind::StoreRange, "StoreRange"),
];

fn assert_prints(rt: &impl Abort, alloc: Global, shown: &impl Display, text: &str) {
    let printed = format!(in alloc; "{shown}").expect(rt, "memory");
    assert_same(rt, &printed.as_str(), &text);
}

#[test]
fn prints_traps(rt: HostRuntime) {
    let trap = Trap {
        at: 3,
        kind: TrapKind::WrongType,
    };
    assert_prints(&rt, rt.alloc(), &trap, "Type at 3");
    for (kind, word) in &KINDS {
        assert_same(&rt, &kind.word(), word);
        assert_prints(&rt, rt.alloc(), kind, word);
    }
}

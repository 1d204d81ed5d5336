//! Accepted programs, and what their scans make.

use crate::runs::programs::{DEFERRED, LIMITED, NO_REST, TOWARD_ZERO};
use crate::worked::programs::{BRANCHES, GUARDED, MOST_TURNS, NINE_TURNS, Program, SUM};
use point_types::{Cause, Reading};

/// A scan: its readings, its steps, and the variables and outputs after it.
pub struct Worked {
    pub readings: &'static [Reading],
    pub steps: u32,
    pub variables: &'static [i64],
    pub outputs: &'static [Option<i64>],
}

/// An accepted program, its budget, its variables before the first scan, and its scans.
pub struct Case {
    pub program: Program,
    pub budget: u32,
    pub starts: &'static [i64],
    pub scans: &'static [Worked],
}

pub const SUM_CASE: &Case = &Case {
    program: SUM,
    budget: 11,
    starts: &[0],
    scans: &[
        Worked {
            readings: &[Reading::Value(3000), Reading::Value(2500)],
            steps: 11,
            variables: &[5500],
            outputs: &[None, None],
        },
        Worked {
            readings: &[Reading::Value(1), Reading::Absent(Cause::NoBlock)],
            steps: 6,
            variables: &[5500],
            outputs: &[None, None],
        },
    ],
};

pub const BRANCHES_CASE: &Case = &Case {
    program: BRANCHES,
    budget: 17,
    starts: &[1, 0],
    scans: &[Worked {
        readings: &[],
        steps: 6,
        variables: &[1, 1],
        outputs: &[],
    }],
};

pub const OTHER_BRANCHES_CASE: &Case = &Case {
    program: BRANCHES,
    budget: 17,
    starts: &[0, 0],
    scans: &[Worked {
        readings: &[],
        steps: 17,
        variables: &[0, 4],
        outputs: &[],
    }],
};

pub const NINE_TURNS_CASE: &Case = &Case {
    program: NINE_TURNS,
    budget: 120,
    starts: &[0],
    scans: &[
        Worked {
            readings: &[],
            steps: 93,
            variables: &[70],
            outputs: &[],
        },
        Worked {
            readings: &[],
            steps: 93,
            variables: &[70],
            outputs: &[],
        },
    ],
};

pub const MOST_TURNS_CASE: &Case = &Case {
    program: MOST_TURNS,
    budget: 3072,
    starts: &[0],
    scans: &[Worked {
        readings: &[],
        steps: 2307,
        variables: &[100],
        outputs: &[],
    }],
};

pub const GUARDED_CASE: &Case = &Case {
    program: GUARDED,
    budget: 18,
    starts: &[0],
    scans: &[
        Worked {
            readings: &[Reading::Value(5), Reading::Absent(Cause::NoBlock)],
            steps: 16,
            variables: &[5],
            outputs: &[None, None],
        },
        Worked {
            readings: &[Reading::Absent(Cause::NoBlock), Reading::Value(5)],
            steps: 3,
            variables: &[5],
            outputs: &[None, None],
        },
    ],
};

pub const LIMITED_CASE: &Case = &Case {
    program: LIMITED,
    budget: 5,
    starts: &[],
    scans: &[
        Worked {
            readings: &[Reading::Value(1), Reading::Absent(Cause::NoBlock)],
            steps: 5,
            variables: &[],
            outputs: &[None, Some(7)],
        },
        Worked {
            readings: &[
                Reading::Absent(Cause::NoBlock),
                Reading::Absent(Cause::NoBlock),
            ],
            steps: 3,
            variables: &[],
            outputs: &[None, None],
        },
    ],
};

pub const TOWARD_ZERO_CASE: &Case = &Case {
    program: TOWARD_ZERO,
    budget: 11,
    starts: &[0, 0],
    scans: &[Worked {
        readings: &[],
        steps: 11,
        variables: &[-2, -1],
        outputs: &[],
    }],
};

pub const DEFERRED_CASE: &Case = &Case {
    program: DEFERRED,
    budget: 9,
    starts: &[0],
    scans: &[Worked {
        readings: &[],
        steps: 9,
        variables: &[14],
        outputs: &[],
    }],
};

pub const NO_REST_CASE: &Case = &Case {
    program: NO_REST,
    budget: 6,
    starts: &[i64::MIN],
    scans: &[Worked {
        readings: &[],
        steps: 6,
        variables: &[0],
        outputs: &[],
    }],
};

/// A divisor, and the steps and the quotient of 100 by it.
pub static QUOTIENTS: [(i64, u32, i64); 11] = [
    (0, 6, 0),
    (1, 11, 100),
    (2, 11, 50),
    (3, 11, 33),
    (4, 11, 25),
    (5, 11, 20),
    (6, 11, 16),
    (7, 11, 14),
    (8, 11, 12),
    (9, 11, 11),
    (10, 11, 10),
];

/// Powers, from one end of the site's range to the other, and none.
pub static POWERS: [Reading; 6] = [
    Reading::Value(-100_000),
    Reading::Value(-1),
    Reading::Value(0),
    Reading::Value(7),
    Reading::Value(100_000),
    Reading::Absent(Cause::NotImplemented),
];

/// Programs of two tags.
pub static OF_POWERS: [Program; 3] = [SUM, GUARDED, LIMITED];

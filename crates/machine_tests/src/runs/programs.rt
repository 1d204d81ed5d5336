//! Programs that are run.

use crate::worked::programs::Program;
use point_types::IlType;

/// `LD inv1_w_OK / JMPCN e / LD 7 / ST lim1 / e:`
pub const LIMITED: Program = Program {
    version: 1,
    vars: &[],
    tags: &[("inv1_w", false, IlType::Dint), ("lim1", true, IlType::Int)],
    code: &[3, 0, 0, 35, 0, 19, 5, 2, 0, 0, 0, 0, 0, 0, 0, 7, 7, 0, 1, 0],
};

/// `LD -7 / DIV 3 / ST q / LD -7 / MOD 3 / ST m`
pub const TOWARD_ZERO: Program = Program {
    version: 1,
    vars: &[
        ("q", IlType::Dint, -2_147_483_648, 2_147_483_647),
        ("m", IlType::Dint, -2_147_483_648, 2_147_483_647),
    ],
    tags: &[],
    code: &[
        5, 3, 255, 255, 255, 255, 255, 255, 255, 249, 12, 5, 3, 0, 0, 0, 0, 0, 0, 0, 3, 20, 6, 0,
        0, 5, 3, 255, 255, 255, 255, 255, 255, 255, 249, 12, 5, 3, 0, 0, 0, 0, 0, 0, 0, 3, 21, 6,
        0, 1, 0,
    ],
};

/// `LD 2 / MUL( 3 / ADD 4 / ) / ST x`
pub const DEFERRED: Program = Program {
    version: 1,
    vars: &[("x", IlType::Dint, -2_147_483_648, 2_147_483_647)],
    tags: &[],
    code: &[
        5, 3, 0, 0, 0, 0, 0, 0, 0, 2, 12, 5, 3, 0, 0, 0, 0, 0, 0, 0, 3, 12, 5, 3, 0, 0, 0, 0, 0, 0,
        0, 4, 17, 19, 6, 0, 0, 0,
    ],
};

/// `LD a / MOD -1 / ST a`
pub const NO_REST: Program = Program {
    version: 1,
    vars: &[("a", IlType::Lint, i64::MIN, i64::MAX)],
    tags: &[],
    code: &[
        1, 0, 0, 12, 5, 4, 255, 255, 255, 255, 255, 255, 255, 255, 21, 6, 0, 0, 0,
    ],
};

//! Programs as tables.

use point_types::IlType;

/// A variable of a program: its name, its type and its declared range.
pub type DeclaredVariable = (&'static str, IlType, i64, i64);

/// A tag of a program: its name, whether it is stored, and its type.
pub type DeclaredTag = (&'static str, bool, IlType);

/// A program: its variables, its tags and its code, in this version of images.
pub struct Program {
    pub version: u8,
    pub vars: &'static [DeclaredVariable],
    pub tags: &'static [DeclaredTag],
    pub code: &'static [u8],
}

/// `LD inv1_w_OK / AND inv2_w_OK / JMPCN skip / LD inv1_w / ADD inv2_w / ST w / skip:`
pub const SUM: Program = Program {
    version: 1,
    vars: &[("w", IlType::Dint, -2_147_483_648, 2_147_483_647)],
    tags: &[
        ("inv1_w", false, IlType::Dint),
        ("inv2_w", false, IlType::Dint),
    ],
    code: &[
        3, 0, 0, 12, 3, 0, 1, 14, 35, 0, 22, 2, 0, 0, 12, 2, 0, 1, 17, 6, 0, 0, 0,
    ],
};

/// `LD a / DIV 3 / ADD a / ST b`
pub const DIVIDED: Program = Program {
    version: 1,
    vars: &[
        ("a", IlType::Int, -32_768, 32_767),
        ("b", IlType::Int, -32_768, 32_767),
    ],
    tags: &[],
    code: &[
        1, 0, 0, 12, 5, 2, 0, 0, 0, 0, 0, 0, 0, 3, 20, 12, 1, 0, 0, 17, 6, 0, 1, 0,
    ],
};

/// `LD x / EQ 0 / JMPC skip / LD 100 / DIV x / ST y / skip:`
pub const QUOTIENT: Program = Program {
    version: 1,
    vars: &[
        ("x", IlType::Int, 0, 10),
        ("y", IlType::Int, -32_768, 32_767),
    ],
    tags: &[],
    code: &[
        1, 0, 0, 12, 5, 2, 0, 0, 0, 0, 0, 0, 0, 0, 24, 34, 0, 36, 5, 2, 0, 0, 0, 0, 0, 0, 0, 100,
        12, 1, 0, 0, 20, 6, 0, 1, 0,
    ],
};

/// `LD c / JMPCN long / LD 1 / ST y / JMP done / long: LD 0`, four times `ADD 1`, `ST y / done:`
pub const BRANCHES: Program = Program {
    version: 1,
    vars: &[
        ("c", IlType::Bool, 0, 1),
        ("y", IlType::Dint, -2_147_483_648, 2_147_483_647),
    ],
    tags: &[],
    code: &[
        1, 0, 0, 35, 0, 22, 5, 3, 0, 0, 0, 0, 0, 0, 0, 1, 6, 0, 1, 33, 0, 83, 5, 3, 0, 0, 0, 0, 0,
        0, 0, 0, 12, 5, 3, 0, 0, 0, 0, 0, 0, 0, 1, 17, 12, 5, 3, 0, 0, 0, 0, 0, 0, 0, 1, 17, 12, 5,
        3, 0, 0, 0, 0, 0, 0, 0, 1, 17, 12, 5, 3, 0, 0, 0, 0, 0, 0, 0, 1, 17, 6, 0, 1, 0,
    ],
};

/// `LD 0 / ST z / again: LD z / ADD 7 / MIN 100 / ST z / {LOOP 9} JMP again`
pub const NINE_TURNS: Program = Program {
    version: 2,
    vars: &[("z", IlType::Int, 0, 100)],
    tags: &[],
    code: &[
        5, 2, 0, 0, 0, 0, 0, 0, 0, 0, 6, 0, 0, 1, 0, 0, 12, 5, 2, 0, 0, 0, 0, 0, 0, 0, 7, 17, 12,
        5, 2, 0, 0, 0, 0, 0, 0, 0, 100, 28, 6, 0, 0, 38, 0, 9, 0, 13, 0,
    ],
};

/// The same with `{LOOP 255}`.
pub const MOST_TURNS: Program = Program {
    version: 2,
    vars: &[("z", IlType::Int, 0, 100)],
    tags: &[],
    code: &[
        5, 2, 0, 0, 0, 0, 0, 0, 0, 0, 6, 0, 0, 1, 0, 0, 12, 5, 2, 0, 0, 0, 0, 0, 0, 0, 7, 17, 12,
        5, 2, 0, 0, 0, 0, 0, 0, 0, 100, 28, 6, 0, 0, 38, 0, 255, 0, 13, 0,
    ],
};

/// `x: LD inv1_w_OK / JMPCN e / LD inv1_w / ST w / {LOOP 2} JMP x / e:`
pub const GUARDED: Program = Program {
    version: 2,
    vars: &[("w", IlType::Dint, -2_147_483_648, 2_147_483_647)],
    tags: &[
        ("inv1_w", false, IlType::Dint),
        ("inv2_w", false, IlType::Dint),
    ],
    code: &[3, 0, 0, 35, 0, 17, 2, 0, 0, 6, 0, 0, 38, 0, 2, 0, 0, 0],
};

/// `LD a / ADD 1 / ST a`, where a has its type's range.
pub const ONE_MORE: Program = Program {
    version: 1,
    vars: &[("a", IlType::Int, -32_768, 32_767)],
    tags: &[],
    code: &[1, 0, 0, 12, 5, 2, 0, 0, 0, 0, 0, 0, 0, 1, 17, 6, 0, 0, 0],
};

/// The same, where z is at most 100.
pub const ONE_PERCENT_MORE: Program = Program {
    version: 1,
    vars: &[("z", IlType::Int, 0, 100)],
    tags: &[],
    code: &[1, 0, 0, 12, 5, 2, 0, 0, 0, 0, 0, 0, 0, 1, 17, 6, 0, 0, 0],
};

/// `ST a`: a store without a result.
pub const NO_RESULT: Program = Program {
    version: 1,
    vars: &[("a", IlType::Int, -32_768, 32_767)],
    tags: &[],
    code: &[6, 0, 0, 0],
};

//! Programs and their verdicts against the site of two inverters, by 32 deferred values at most.

use crate::tests::verdicts::judge;
use crate::worked::programs::{
    BRANCHES, GUARDED, MOST_TURNS, NINE_TURNS, NO_RESULT, ONE_MORE, ONE_PERCENT_MORE, Program,
    QUOTIENT, SUM,
};
use point_types::IlType;
use site_model::Site;
use std::alloc::Global;
use std::process::Abort;
use verifier::refusal::RefusalKind;

/// `LD inv1_w / ST w`
const UNGUARDED: Program = Program {
    version: 2,
    vars: &[("w", IlType::Dint, -2_147_483_648, 2_147_483_647)],
    tags: &[
        ("inv1_w", false, IlType::Dint),
        ("inv2_w", false, IlType::Dint),
    ],
    code: &[2, 0, 0, 6, 0, 0, 0],
};

/// `LD 100 / DIV x / ST y`
const UNTESTED: Program = Program {
    version: 2,
    vars: &[
        ("x", IlType::Int, 0, 10),
        ("y", IlType::Int, -32_768, 32_767),
    ],
    tags: &[],
    code: &[5, 2, 0, 0, 0, 0, 0, 0, 0, 100, 12, 1, 0, 0, 20, 6, 0, 1, 0],
};

/// `LD x / EQ 0 / JMPC skip / LD 100 / DIV x / ST y / skip:`, where x is at least -1.
const AROUND_ZERO: Program = Program {
    version: 2,
    vars: &[
        ("x", IlType::Int, -1, 10),
        ("y", IlType::Int, -32_768, 32_767),
    ],
    tags: &[],
    code: &[
        1, 0, 0, 12, 5, 2, 0, 0, 0, 0, 0, 0, 0, 0, 24, 34, 0, 36, 5, 2, 0, 0, 0, 0, 0, 0, 0, 100,
        12, 1, 0, 0, 20, 6, 0, 1, 0,
    ],
};

/// `LD x / EQ 0 / JMPC e / LD 0 / ST x / LD 100 / DIV x / ST y / e:`, where x is stored after its test.
const STORED_ZERO: Program = Program {
    version: 2,
    vars: &[
        ("x", IlType::Int, 0, 10),
        ("y", IlType::Int, -32_768, 32_767),
    ],
    tags: &[],
    code: &[
        1, 0, 0, 12, 5, 2, 0, 0, 0, 0, 0, 0, 0, 0, 24, 34, 0, 49, 5, 2, 0, 0, 0, 0, 0, 0, 0, 0, 6,
        0, 0, 5, 2, 0, 0, 0, 0, 0, 0, 0, 100, 12, 1, 0, 0, 20, 6, 0, 1, 0,
    ],
};

/// A jump into the arguments of an instruction.
const INTO_ARGUMENTS: Program = Program {
    version: 2,
    vars: &[],
    tags: &[],
    code: &[33, 0, 5, 5, 2, 0, 0, 0, 0, 0, 0, 0, 3, 0],
};

/// A jump to the end.
const TO_THE_END: Program = Program {
    version: 2,
    vars: &[],
    tags: &[],
    code: &[33, 0, 13, 5, 2, 0, 0, 0, 0, 0, 0, 0, 3, 0],
};

/// `LD 0 / ST z / again: LD z / ADD 7 / ST z / {LOOP 9} JMP again`
const UNBOUNDED: Program = Program {
    version: 2,
    vars: &[("z", IlType::Int, 0, 100)],
    tags: &[],
    code: &[
        5, 2, 0, 0, 0, 0, 0, 0, 0, 0, 6, 0, 0, 1, 0, 0, 12, 5, 2, 0, 0, 0, 0, 0, 0, 0, 7, 17, 6, 0,
        0, 38, 0, 9, 0, 13, 0,
    ],
};

/// A counted jump after the test of the input.
const BEHIND_THE_TEST: Program = Program {
    version: 2,
    vars: &[("w", IlType::Dint, -2_147_483_648, 2_147_483_647)],
    tags: &[
        ("inv1_w", false, IlType::Dint),
        ("inv2_w", false, IlType::Dint),
    ],
    code: &[3, 0, 0, 35, 0, 17, 2, 0, 0, 6, 0, 0, 38, 0, 2, 0, 6, 0],
};

/// A load of a tag that the site doesn't have.
const NO_TAG: Program = Program {
    version: 2,
    vars: &[],
    tags: &[("nope", false, IlType::Int)],
    code: &[2, 0, 0, 0],
};

/// A load of a tag of another type.
const WIDER_TAG: Program = Program {
    version: 2,
    vars: &[],
    tags: &[("target", false, IlType::Dint)],
    code: &[2, 0, 0, 0],
};

/// A store into an input.
const STORED_INPUT: Program = Program {
    version: 2,
    vars: &[],
    tags: &[("inv1_w", true, IlType::Dint)],
    code: &[5, 3, 0, 0, 0, 0, 0, 0, 0, 0, 7, 0, 0, 0],
};

/// A tag that isn't used, of another type.
const NARROW_TAG: Program = Program {
    version: 2,
    vars: &[],
    tags: &[("lim1", true, IlType::Int), ("inv1_w", false, IlType::Int)],
    code: &[0],
};

/// An output that would be loaded.
const LOADED_OUTPUT: Program = Program {
    version: 2,
    vars: &[],
    tags: &[("lim1", false, IlType::Int)],
    code: &[0],
};

/// `LD a / ST b`, of two types.
const WRONG_TYPE: Program = Program {
    version: 2,
    vars: &[
        ("a", IlType::Int, -32_768, 32_767),
        ("b", IlType::Dint, -2_147_483_648, 2_147_483_647),
    ],
    tags: &[],
    code: &[1, 0, 0, 6, 0, 1, 0],
};

const NO_CODE: Program = Program {
    version: 2,
    vars: &[],
    tags: &[],
    code: &[255],
};

/// `LD a`, and no end.
const NO_END: Program = Program {
    version: 2,
    vars: &[("a", IlType::Int, -32_768, 32_767)],
    tags: &[],
    code: &[1, 0, 0],
};

const BEHIND_THE_END: Program = Program {
    version: 2,
    vars: &[],
    tags: &[],
    code: &[0, 255],
};

// Each program is passed on its own: in one table they take the prover much longer.
/// Results, their ranges and their divisors.
pub(crate) fn judge_results(rt: &impl Abort, alloc: Global, site: &Site) {
    judge(rt, alloc, site, &ONE_MORE, Err((RefusalKind::Overflow, 3)));
    judge(
        rt,
        alloc,
        site,
        &ONE_PERCENT_MORE,
        Err((RefusalKind::StoreRange, 4)),
    );
    judge(
        rt,
        alloc,
        site,
        &UNGUARDED,
        Err((RefusalKind::MayBeMissing, 0)),
    );
    judge(rt, alloc, site, &SUM, Ok(11));
    judge(rt, alloc, site, &QUOTIENT, Ok(11));
    judge(
        rt,
        alloc,
        site,
        &UNTESTED,
        Err((RefusalKind::ZeroDivisor, 3)),
    );
    judge(
        rt,
        alloc,
        site,
        &AROUND_ZERO,
        Err((RefusalKind::ZeroDivisor, 8)),
    );
    judge(
        rt,
        alloc,
        site,
        &STORED_ZERO,
        Err((RefusalKind::ZeroDivisor, 10)),
    );
}

/// Jumps, turns and what is known after a test.
pub(crate) fn judge_ways(rt: &impl Abort, alloc: Global, site: &Site) {
    judge(
        rt,
        alloc,
        site,
        &INTO_ARGUMENTS,
        Err((RefusalKind::Jump, 0)),
    );
    judge(rt, alloc, site, &TO_THE_END, Ok(2));
    judge(rt, alloc, site, &BRANCHES, Ok(17));
    judge(rt, alloc, site, &NINE_TURNS, Ok(120));
    judge(rt, alloc, site, &MOST_TURNS, Ok(3072));
    judge(
        rt,
        alloc,
        site,
        &UNBOUNDED,
        Err((RefusalKind::StoreRange, 6)),
    );
    judge(
        rt,
        alloc,
        site,
        &BEHIND_THE_TEST,
        Err((RefusalKind::MayBeMissing, 2)),
    );
    judge(rt, alloc, site, &GUARDED, Ok(18));
}

/// Tags, types and code.
pub(crate) fn judge_tags_and_code(rt: &impl Abort, alloc: Global, site: &Site) {
    judge(rt, alloc, site, &NO_TAG, Err((RefusalKind::TagUnknown, 0)));
    judge(rt, alloc, site, &WIDER_TAG, Err((RefusalKind::TagType, 0)));
    judge(
        rt,
        alloc,
        site,
        &STORED_INPUT,
        Err((RefusalKind::TagAccess, 0)),
    );
    judge(rt, alloc, site, &NARROW_TAG, Err((RefusalKind::TagType, 1)));
    judge(
        rt,
        alloc,
        site,
        &LOADED_OUTPUT,
        Err((RefusalKind::TagAccess, 0)),
    );
    judge(rt, alloc, site, &NO_RESULT, Err((RefusalKind::NoResult, 0)));
    judge(
        rt,
        alloc,
        site,
        &WRONG_TYPE,
        Err((RefusalKind::WrongType, 1)),
    );
    judge(rt, alloc, site, &NO_CODE, Err((RefusalKind::Code, 0)));
    judge(rt, alloc, site, &NO_END, Err((RefusalKind::Code, 1)));
    judge(
        rt,
        alloc,
        site,
        &BEHIND_THE_END,
        Err((RefusalKind::Code, 1)),
    );
}

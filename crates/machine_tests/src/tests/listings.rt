//! The instructions of an image.

use crate::tests::{assert_same, assert_true};
use crate::worked::images::{code, variables};
use crate::worked::programs::DeclaredVariable;
use point_types::{Condition, IlType, Items};
use scan_code::{Image, Op};
use std::alloc::Global;
use std::process::Abort;
use verifier::listing::listing;
use verifier::refusal::{Refusal, RefusalKind, RefusedAt};

const COUNTED: &[u8] = &[0x01, 0, 0, 0x26, 0, 9, 0, 0, 0x00];

static LISTED: [(usize, Op); 3] = [
    (0, Op::LoadVariable(0)),
    (3, Op::Repeat(Condition::Always, 0, 9, 0)),
    (8, Op::End),
];

const PERCENT: &[DeclaredVariable] = &[("z", IlType::Int, 0, 100)];

/// An image of this code, with a variable in percent.
fn coded(rt: &impl Abort, alloc: Global, version: u8, bytes: &[u8]) -> Image {
    let vars = variables(alloc, PERCENT, &[]).expect(rt, "variables");
    let code = code(alloc, bytes).expect(rt, "memory");
    Image::new(version, vars, Items::new(alloc), code).expect(rt, "an image")
}

#[test]
fn lists_the_instructions_of_an_image(rt: HostRuntime) {
    let image = coded(&rt, rt.alloc(), 2, COUNTED);
    let listed = listing(rt.alloc(), &image).expect(&rt, "a listing");
    assert_true(&rt, listed.as_slice() == LISTED.as_slice());
}

/// A version and code, and the first instruction that is none.
static UNLISTED: [(u8, &[u8], usize); 8] = [
    (1, COUNTED, 1),
    (1, &[0xFF], 0),
    (1, &[], 0),
    (1, &[0x01, 0, 0], 1),
    (1, &[0x01, 0, 1, 0x00], 0),
    (1, &[0x02, 0, 0, 0x00], 0),
    (1, &[0x00, 0x01, 0], 1),
    (2, &[0x26, 1, 9, 0, 0, 0x00], 0),
];

fn refused(at: usize) -> Option<Refusal> {
    Some(Refusal {
        at: RefusedAt::Instruction(at),
        kind: RefusalKind::Code,
    })
}

#[test]
fn refuses_the_first_that_is_no_instruction(rt: HostRuntime) {
    for (version, code, at) in &UNLISTED {
        let image = coded(&rt, rt.alloc(), *version, code);
        let found = listing(rt.alloc(), &image).err();
        assert_same(&rt, &found, &refused(*at));
    }
}

#[test]
fn prints_kinds(rt: HostRuntime) {
    let refusal = Refusal {
        at: RefusedAt::Instruction(3),
        kind: RefusalKind::WrongType,
    };
    let printed = format!(in rt.alloc(); "{refusal}").expect(&rt, "memory");
    assert_same(&rt, &printed.as_str(), &"Type at 3");
    assert_same(&rt, &RefusalKind::WrongType.word(), &"Type");
    assert_same(&rt, &RefusalKind::OverBudget.word(), &"OverBudget");
}

//! The words and the marks of a text, by the instructions that they make.

use crate::tests::seen::{Instruction, Want, instructs};

static WORDS: [Instruction; 29] = [
    ("LD TRUE", ("LD", ""), Want::Truth(true), Want::Nothing),
    ("LD False", ("LD", ""), Want::Truth(false), Want::Nothing),
    ("LDN a", ("LD", "N"), Want::Named("a"), Want::Nothing),
    ("ST a", ("ST", ""), Want::Named("a"), Want::Nothing),
    ("STN a", ("ST", "N"), Want::Named("a"), Want::Nothing),
    ("S a", ("S", ""), Want::Named("a"), Want::Nothing),
    ("R a", ("R", ""), Want::Named("a"), Want::Nothing),
    ("JMP a", ("JMP", ""), Want::Named("a"), Want::Nothing),
    ("JMPC a", ("JMP", "C"), Want::Named("a"), Want::Nothing),
    ("JMPCN a", ("JMP", "CN"), Want::Named("a"), Want::Nothing),
    ("RET", ("RET", ""), Want::Nothing, Want::Nothing),
    ("RETC", ("RET", "C"), Want::Nothing, Want::Nothing),
    ("RETCN", ("RET", "CN"), Want::Nothing, Want::Nothing),
    ("AND 1", ("AND", ""), Want::Number(1), Want::Nothing),
    ("ANDN 1", ("AND", "N"), Want::Number(1), Want::Nothing),
    ("ORN 1", ("OR", "N"), Want::Number(1), Want::Nothing),
    ("XORN 1", ("XOR", "N"), Want::Number(1), Want::Nothing),
    ("MOD 1", ("MOD", ""), Want::Number(1), Want::Nothing),
    ("GT 1", ("GT", ""), Want::Number(1), Want::Nothing),
    ("LT 1", ("LT", ""), Want::Number(1), Want::Nothing),
    ("MIN 1", ("MIN", ""), Want::Number(1), Want::Nothing),
    ("MAX 1", ("MAX", ""), Want::Number(1), Want::Nothing),
    (
        "LIMIT 1, a",
        ("LIMIT", ""),
        Want::Number(1),
        Want::Named("a"),
    ),
    ("SEL a,b", ("SEL", ""), Want::Named("a"), Want::Named("b")),
    ("NOT", ("NOT", ""), Want::Nothing, Want::Nothing),
    ("ABS", ("ABS", ""), Want::Nothing, Want::Nothing),
    ("INT_TO_DINT", ("INT", "DINT"), Want::Nothing, Want::Nothing),
    ("sint_to_int", ("SINT", "INT"), Want::Nothing, Want::Nothing),
    (
        "Udint_To_Uint",
        ("UDINT", "UINT"),
        Want::Nothing,
        Want::Nothing,
    ),
];

/// Words that are names.
static NAMES: [Instruction; 8] = [
    (
        "LD INT_TO_INT",
        ("LD", ""),
        Want::Named("int_to_int"),
        Want::Nothing,
    ),
    (
        "LD BOOL_TO_INT",
        ("LD", ""),
        Want::Named("bool_to_int"),
        Want::Nothing,
    ),
    ("LD ADDN", ("LD", ""), Want::Named("addn"), Want::Nothing),
    ("LD n", ("LD", ""), Want::Named("n"), Want::Nothing),
    ("LD c", ("LD", ""), Want::Named("c"), Want::Nothing),
    ("LD LOOP", ("LD", ""), Want::Named("loop"), Want::Nothing),
    ("LD end", ("LD", ""), Want::Named("end"), Want::Nothing),
    ("LD p_ok", ("LD", ""), Want::Named("p_ok"), Want::Nothing),
];

#[test]
fn knows_the_words(rt: HostRuntime) {
    instructs(&rt, rt.alloc(), &WORDS);
    instructs(&rt, rt.alloc(), &NAMES);
}

static WITHOUT_BLANKS: [Instruction; 18] = [
    ("LD-7", ("LD", ""), Want::Number(-7), Want::Nothing),
    (
        "LD (* one\nor two *) a",
        ("LD", ""),
        Want::Named("a"),
        Want::Nothing,
    ),
    ("(*)*)LD(***)b", ("LD", ""), Want::Named("b"), Want::Nothing),
    (
        "(*)*)a(***):ST(***)b",
        ("ST", ""),
        Want::Named("b"),
        Want::Nothing,
    ),
    (
        "{LOOP 9}JMP x",
        ("JMP", ""),
        Want::Named("x"),
        Want::Nothing,
    ),
    ("&5", ("AND", ""), Want::Number(5), Want::Nothing),
    ("& x", ("AND", ""), Want::Named("x"), Want::Nothing),
    ("&n(\nLD 1\n)", ("AND", "N("), Want::Nothing, Want::Nothing),
    ("&n(5\n)", ("AND", "N("), Want::Number(5), Want::Nothing),
    ("&(5\n)", ("AND", "("), Want::Number(5), Want::Nothing),
    ("&N x", ("AND", "N"), Want::Named("x"), Want::Nothing),
    ("&Nx", ("AND", ""), Want::Named("nx"), Want::Nothing),
    ("&n1", ("AND", ""), Want::Named("n1"), Want::Nothing),
    ("&N_x", ("AND", ""), Want::Named("n_x"), Want::Nothing),
    ("& N", ("AND", ""), Want::Named("n"), Want::Nothing),
    ("&ot", ("AND", ""), Want::Named("ot"), Want::Nothing),
    ("SEL a,b", ("SEL", ""), Want::Named("a"), Want::Named("b")),
    (
        "LIMIT a,(**)b",
        ("LIMIT", ""),
        Want::Named("a"),
        Want::Named("b"),
    ),
];

#[test]
fn parts_tokens_without_blanks(rt: HostRuntime) {
    instructs(&rt, rt.alloc(), &WITHOUT_BLANKS);
}

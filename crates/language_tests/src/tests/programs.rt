//! Whole texts and their programs.

use crate::tests::seen::{Instruction, Line, Want, action_at, has_lines, instructs, turns};
use crate::tests::{
    assert_prints, assert_same, assert_same_at, assert_true, assert_true_at, program_of,
};
use il_reader::{Program, ReadFault, ReadFaultKind, Variable as Declared, read};
use point_types::IlType;
use std::alloc::Global;
use std::process::Abort;

/// A variable that is wanted: its line, its name, its range and its start value.
type Variable = (u32, &'static str, i64, i64, i64);

/// The program declares these variables.
fn declares(rt: &impl Abort, program: &Program, wanted: &[Variable]) {
    let variables = program.variables.as_slice();
    assert_same(rt, &variables.len(), &wanted.len());
    for (variable, row) in variables.iter().zip(wanted) {
        assert_true_at(rt, is_variable(variable, row), &row.1);
    }
}

fn is_variable(variable: &Declared, wanted: &Variable) -> bool {
    let (line, name, low, high, start) = wanted;
    let var = &variable.var;
    variable.line == *line
        && var.name.as_str() == *name
        && (var.low, var.high, var.start) == (*low, *high, *start)
}

/// An external that is wanted: its line, its name and its type.
type External = (u32, &'static str, IlType);

/// The program has these externals.
fn names(rt: &impl Abort, program: &Program, wanted: &[External]) {
    let externals = program.externals.as_slice();
    assert_same(rt, &externals.len(), &wanted.len());
    for (external, (line, name, kind)) in externals.iter().zip(wanted) {
        let is_wanted = external.line == *line && external.kind == *kind;
        assert_true_at(rt, is_wanted && external.name.as_str() == *name, name);
    }
}

const WHOLE: &str =
    "(* A program\nend *)(*) *)\tPROGRAM P\r\nVAR a : INT := -1_0;\n b, C\n : dint; END_VAR\nvar (**) x_1:INT:=+07;end_var ldn A\r\n\n ADD-7\nSUB (* over\nlines *) c\nSTN X_1\nEND_PROGRAM\n (* end *)\n";

const WHOLE_VARIABLES: &[Variable] = &[
    (3, "a", -32768, 32767, -10),
    (4, "b", -2147483648, 2147483647, 0),
    (4, "c", -2147483648, 2147483647, 0),
    (6, "x_1", -32768, 32767, 7),
];

const WHOLE_LINES: &[Line] = &[
    (6, "", ("LD", "N")),
    (8, "", ("ADD", "")),
    (9, "", ("SUB", "")),
    (11, "", ("ST", "N")),
];

const DECLARED: &str =
    "PROGRAM p VAR_EXTERNAL u, v\n: INT; w : BOOL; END_VAR VAR q, v_o : BOOL := TRUE;\nu_okay : USINT (16#10 .. 8#77)\n:= USINT#2#1_0001; k : LINT := -9223372036854775808; f : BOOL;\nn : SINT (-128..127); END_VAR VAR_EXTERNAL END_VAR END_PROGRAM\n";

const DECLARED_VARIABLES: &[Variable] = &[
    (2, "q", 0, 1, 1),
    (2, "v_o", 0, 1, 1),
    (3, "u_okay", 16, 63, 17),
    (
        4,
        "k",
        -9223372036854775808,
        9223372036854775807,
        -9223372036854775808,
    ),
    (4, "f", 0, 1, 0),
    (5, "n", -128, 127, -128),
];

const DECLARED_EXTERNALS: &[External] = &[
    (1, "u", IlType::Int),
    (1, "v", IlType::Int),
    (2, "w", IlType::Bool),
];

/// Declarations without blanks, and the words of the grammar in letters of both cases.
static PACKED: [(&str, IlType, i64, i64, i64); 4] = [
    (
        "PROGRAM p VAR\na:INT:=5;END_VAR END_PROGRAM",
        IlType::Int,
        -32768,
        32767,
        5,
    ),
    (
        "PROGRAM p VAR\na:INT(0..16#F);END_VAR END_PROGRAM",
        IlType::Int,
        0,
        15,
        0,
    ),
    (
        "PROGRAM p var\na:BOOL;END_VAR End_Program",
        IlType::Bool,
        0,
        1,
        0,
    ),
    (
        "PROGRAM p VAR(*)*)\na(***):USINT;END_VAR VAR_EXTERNAL END_VAR END_PROGRAM",
        IlType::Usint,
        0,
        255,
        0,
    ),
];

fn first_kind(rt: &impl Abort, program: &Program) -> IlType {
    let variable = program.variables.as_slice().first();
    variable.expect(rt, "a variable").var.kind
}

#[test]
fn reads_declarations_without_blanks(rt: HostRuntime) {
    for (text, kind, low, high, start) in &PACKED {
        let program = program_of(&rt, rt.alloc(), text);
        declares(&rt, &program, &[(2, "a", *low, *high, *start)]);
        assert_true(&rt, first_kind(&rt, &program) == *kind);
    }
}

const INSTRUCTED: &str =
    "PROGRAM p\na:\nb: LD INT#-5\nc (* x\n*) : (* y\n*) LIMIT TRUE , a\nSEL 1, 2\nNOT\nABS\nINT_TO_DINT\nS x\nR x\nJMP a\n{ Loop 255 } JMPCN d\ne: {LOOP 1}JMP e\nRETC\nANDN x\n&N x\nMIN 3\nEND_PROGRAM";

const INSTRUCTED_LINES: &[Line] = &[
    (2, "a", ("", "")),
    (3, "b", ("LD", "")),
    (4, "c", ("LIMIT", "")),
    (7, "", ("SEL", "")),
    (8, "", ("NOT", "")),
    (9, "", ("ABS", "")),
    (10, "", ("INT", "DINT")),
    (11, "", ("S", "")),
    (12, "", ("R", "")),
    (13, "", ("JMP", "")),
    (14, "", ("JMP", "CN")),
    (15, "e", ("JMP", "")),
    (16, "", ("RET", "C")),
    (17, "", ("AND", "N")),
    (18, "", ("AND", "N")),
    (19, "", ("MIN", "")),
];

/// Names that end as presences do, of a variable and an external.
const PRESENCES: &str =
    "PROGRAM p VAR p, p_ok : INT; END_VAR VAR_EXTERNAL q_oki, q : INT; END_VAR END_PROGRAM\n";

const PRESENCE_VARIABLES: &[Variable] = &[
    (1, "p", -32768, 32767, 0),
    (1, "p_ok", -32768, 32767, 0),
];

const PRESENCE_EXTERNALS: &[External] = &[(1, "q_oki", IlType::Int), (1, "q", IlType::Int)];

/// A text, and what the program p has that it is.
struct Whole {
    text: &'static str,
    variables: &'static [Variable],
    externals: &'static [External],
    lines: &'static [Line],
    end_line: u32,
}

const WHOLE_PROGRAM: &Whole = &Whole {
    text: WHOLE,
    variables: WHOLE_VARIABLES,
    externals: &[],
    lines: WHOLE_LINES,
    end_line: 12,
};

const DECLARED_PROGRAM: &Whole = &Whole {
    text: DECLARED,
    variables: DECLARED_VARIABLES,
    externals: DECLARED_EXTERNALS,
    lines: &[],
    end_line: 5,
};

const INSTRUCTED_PROGRAM: &Whole = &Whole {
    text: INSTRUCTED,
    variables: &[],
    externals: &[],
    lines: INSTRUCTED_LINES,
    end_line: 20,
};

const PRESENCES_PROGRAM: &Whole = &Whole {
    text: PRESENCES,
    variables: PRESENCE_VARIABLES,
    externals: PRESENCE_EXTERNALS,
    lines: &[],
    end_line: 1,
};

fn assert_whole(rt: &impl Abort, program: &Program, wanted: &Whole) {
    assert_same(rt, &program.name.as_str(), &"p");
    assert_same(rt, &program.end_line, &wanted.end_line);
    declares(rt, program, wanted.variables);
    names(rt, program, wanted.externals);
    has_lines(rt, program, wanted.lines);
}

fn reads_whole(rt: &impl Abort, alloc: Global, whole: &Whole) {
    assert_whole(rt, &program_of(rt, alloc, whole.text), whole);
}

#[test]
fn reads_whole_programs(rt: HostRuntime) {
    reads_whole(&rt, rt.alloc(), WHOLE_PROGRAM);
    reads_whole(&rt, rt.alloc(), DECLARED_PROGRAM);
    reads_whole(&rt, rt.alloc(), INSTRUCTED_PROGRAM);
    reads_whole(&rt, rt.alloc(), PRESENCES_PROGRAM);
}

static OPERANDS: [Instruction; 4] = [
    ("LD -7", ("LD", ""), Want::Number(-7), Want::Nothing),
    (
        "ADD INT#-5",
        ("ADD", ""),
        Want::Typed(IlType::Int, -5),
        Want::Nothing,
    ),
    (
        "LIMIT 16#10, TRUE",
        ("LIMIT", ""),
        Want::Number(16),
        Want::Truth(true),
    ),
    (
        "SEL FALSE, 2",
        ("SEL", ""),
        Want::Truth(false),
        Want::Number(2),
    ),
];

#[test]
fn reads_operands(rt: HostRuntime) {
    instructs(&rt, rt.alloc(), &OPERANDS);
}

/// How often the first jump is taken at most.
static TURNS: [(&str, Option<u8>); 5] = [
    (
        "PROGRAM p\nx: { Loop 255 (* *) } JMPCN x\nEND_PROGRAM",
        Some(255),
    ),
    ("PROGRAM p\n{LOOP 9}JMP x\nEND_PROGRAM", Some(9)),
    ("PROGRAM p\n{LOOP 007}JMP x\nEND_PROGRAM", Some(7)),
    ("PROGRAM p\n{LOOP 16}JMP x\nEND_PROGRAM", Some(16)),
    ("PROGRAM p JMP x\nx:\nEND_PROGRAM", None),
];

#[test]
fn reads_turns(rt: HostRuntime) {
    for (text, wanted) in &TURNS {
        let program = program_of(&rt, rt.alloc(), text);
        let found = turns(action_at(&rt, &program, 0));
        assert_same_at(&rt, &found, wanted, text);
    }
}

/// A program that shows the power of two inverters and limits the first one.
pub(crate) static LIMITER: &str =
    r#"(* Shows the total power of two inverters, and limits the first one to the target that clients set. *)
PROGRAM limiter
VAR_EXTERNAL
  inv1_w, inv2_w : DINT;
  target, lim1 : INT;
  ena1 : BOOL;
END_VAR
VAR
  total : DINT (0..200000);
END_VAR
  LD inv1_w_OK
  AND inv2_w_OK
  JMPCN hold
  LD inv1_w
  ADD inv2_w
  MAX 0
  ST total
hold:
  LD target
  ST lim1
  LD TRUE
  ST ena1
END_PROGRAM
"#;

/// Why a text is no program, and its line.
fn fault_of(alloc: Global, text: &str) -> Option<(ReadFaultKind, u32)> {
    match read(alloc, text) {
        Ok(_) => None,
        Err(fault) => Some((fault.kind, fault.line)),
    }
}

/// A text is refused for what it says.
fn assert_refused(rt: &impl Abort, fault: Option<(ReadFaultKind, u32)>) {
    let (kind, _) = fault.expect(rt, "a fault");
    assert_true(rt, kind != ReadFaultKind::TooLong);
    assert_true(rt, kind != ReadFaultKind::OutOfMemory);
}

#[test]
fn refuses_each_front_of_a_program_that_lacks_its_last_letter(rt: HostRuntime) {
    assert_true(&rt, fault_of(rt.alloc(), LIMITER).is_none());
    let (most, _) = LIMITER.rsplit_once('M').expect(&rt, "an M");
    for end in 0..=most.len() {
        let front = most.get(..end).expect(&rt, "a front");
        assert_refused(&rt, fault_of(rt.alloc(), front));
    }
    let longest = fault_of(rt.alloc(), most);
    assert_same(&rt, &longest, &Some((ReadFaultKind::Header, 23)));
}

#[test]
fn prints_faults(rt: HostRuntime) {
    let fault = ReadFault {
        line: 1,
        kind: ReadFaultKind::TooLong,
    };
    assert_prints(&rt, rt.alloc(), &fault, "TooLong line 1");
}

//! Tests of the notes: their lines, by text, line and mark.
use crate::tests::assert_same;
use note_text::{Mark, Note};
use std::process::Abort;

/// The text that the notes are on.
const TEXT: &str =
    "PROGRAM p\n  LD inv1_w  (* power *)\nhold: {LOOP 3} JMPC hold\n\tADD( x\r\n  NOT\n(* a\nb *) (* c *) LD 1\n";

/// A line, what is meant on it, and how the line and its carets are shown.
static SHOWN: [(u32, Mark, &str); 16] = [
    (
        2,
        Mark::Operand,
        "    2 |   LD inv1_w  (* power *)\n      |      ^^^^^^\n",
    ),
    (
        2,
        Mark::Operator,
        "    2 |   LD inv1_w  (* power *)\n      |   ^^\n",
    ),
    (
        2,
        Mark::Line,
        "    2 |   LD inv1_w  (* power *)\n      |   ^^^^^^^^^\n",
    ),
    (
        3,
        Mark::Operand,
        "    3 | hold: {LOOP 3} JMPC hold\n      |                     ^^^^\n",
    ),
    (
        3,
        Mark::Operator,
        "    3 | hold: {LOOP 3} JMPC hold\n      |                ^^^^\n",
    ),
    (4, Mark::Operand, "    4 |  ADD( x\n      |       ^\n"),
    (5, Mark::Operand, "    5 |   NOT\n      |   ^^^\n"),
    (
        2,
        Mark::Column(6),
        "    2 |   LD inv1_w  (* power *)\n      |      ^\n",
    ),
    (5, Mark::Column(9), "    5 |   NOT\n      |   ^^^\n"),
    (
        2,
        Mark::Behind,
        "    2 |   LD inv1_w  (* power *)\n      |            ^\n",
    ),
    (5, Mark::Behind, "    5 |   NOT\n      |      ^\n"),
    (5, Mark::Bytes(2, 2), "    5 |   NOT\n      |   ^^\n"),
    (
        2,
        Mark::Name,
        "    2 |   LD inv1_w  (* power *)\n      |      ^^^^^^\n",
    ),
    (6, Mark::Line, "    6 | (* a\n      | ^^^^\n"),
    (
        7,
        Mark::Operator,
        "    7 | b *) (* c *) LD 1\n      |              ^^\n",
    ),
    (8, Mark::Operand, ""),
];

#[test]
fn each_note_shows_the_line_and_what_is_meant(rt: HostRuntime) {
    for (line, mark, source) in SHOWN.iter() {
        let note = note_on(*line, *mark)
            .shown(rt.alloc())
            .expect(&rt, "memory");
        let wanted = wanted(&rt, *line, source);
        assert_same(&rt, &note.as_str(), &wanted.as_str());
    }
}

#[test]
fn a_note_on_a_file_has_no_line(rt: HostRuntime) {
    let note = note_on(0, Mark::Line)
        .shown(rt.alloc())
        .expect(&rt, "memory");
    assert_same(&rt, &note.as_str(), &"p.il: Kind: what\n  help: do\n");
}

fn note_on(line: u32, mark: Mark) -> Note<'static> {
    Note {
        path: "p.il",
        text: TEXT,
        line,
        mark,
        kind: "Kind",
        meaning: "what",
        help: "do",
        name: "",
        detail: "",
    }
}

fn wanted(rt: &(impl AllocGlobal + Abort), line: u32, source: &str) -> String {
    let place = format!(in rt.alloc(); "p.il:{line}: Kind: what\n").expect(rt, "memory");
    let mut lines = place;
    lines.push_str(source).expect(rt, "memory");
    lines.push_str("  help: do\n").expect(rt, "memory");
    lines
}

/// A line, what the texts speak of, what is known, and the note.
const NAMED: &[(u32, &str, &str, &str)] = &[
    (
        2,
        "inv1_w",
        "an input",
        "p.il:2: Kind: inv1_w is missing\n    2 |   LD inv1_w  (* power *)\n      |      ^^^^^^ an input\n  help: test inv1_w_OK, and load inv1_w\n",
    ),
    (
        0,
        "inv1_w",
        "an input",
        "p.il: Kind: inv1_w is missing\n  an input\n  help: test inv1_w_OK, and load inv1_w\n",
    ),
    (
        9,
        "",
        "",
        "p.il:9: Kind: it is missing\n  help: test it_OK, and load it\n",
    ),
];

#[test]
fn a_note_has_the_name_and_what_is_known(rt: HostRuntime) {
    for (line, name, detail, wanted) in NAMED.iter() {
        let mut note = note_on(*line, Mark::Operand);
        note.meaning = "{} is missing";
        note.help = "test {}_OK, and load {}";
        note.name = name;
        note.detail = detail;
        let shown = note.shown(rt.alloc()).expect(&rt, "memory");
        assert_same(&rt, &shown.as_str(), wanted);
    }
}

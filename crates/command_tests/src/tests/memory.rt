//! A program that is judged where memory is refused.
use crate::tests::{assert_same, printed};
use commands::check;
use file_keys::TomlFile;
use std::process::Abort;

const SITE: &str = r#"
[gateway]
unit = 1
models = [1, 103]

[[device]]
name = "inv1"
unit = 1

[[tag]]
name = "inv1_w"
access = "in"
device = "inv1"
model = 103
point = "W"
type = "DINT"
exponent = 0
low = -100000
high = 100000
"#;

const PROGRAM: &str = "PROGRAM p\nVAR a : INT := 7; END_VAR\nLD a\nST a\nEND_PROGRAM\n";

fn assert_verdict_or_refusal(rt: &(impl AllocGlobal + Abort), mut out: Vec<u8>) {
    let Ok(site) = TomlFile::parse(rt.alloc(), SITE) else {
        return;
    };
    let status = check(rt.alloc(), &site, PROGRAM, &[], &mut out);
    let told = if status == 0 {
        "accepted\nbudget 3\n"
    } else {
        "refused: memory\n"
    };
    assert_same(rt, &printed(rt, out).as_str(), &told);
}

/// Run with each allocation refused in turn, it shows that the want of memory is told, and nothing else. It ends where
/// it gets no memory for what it begins with.
#[test]
fn the_verdict_is_told_or_that_memory_was_refused(rt: HostRuntime) {
    if let Ok(out) = Vec::with_capacity(rt.alloc(), 64) {
        assert_verdict_or_refusal(&rt, out);
    }
}

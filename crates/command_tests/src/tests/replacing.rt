//! A program that is put in where memory is refused.
use crate::tests::assert_same;
use commands::{Accepted, accept};
use file_keys::TomlFile;
use gateway::CoreFault;
use served_site::{replace_program, service_of};
use service::Service;
use service_texts::limits;
use std::alloc::Global;
use std::process::Abort;

const SITE: &str = r#"
[gateway]
unit = 1
models = [1]

[[device]]
name = "inv1"
unit = 1
"#;

/// Two variables, of which the other program has the first one.
const OLD: &str = "PROGRAM old
VAR a, b : INT := 7; END_VAR
LD a
ADD 0
MIN 100
MAX 0
ST a
END_PROGRAM
";

const NEW: &str = "PROGRAM new
VAR a : INT (0..100) := 3; c : INT := 5; END_VAR
LD a
ST c
END_PROGRAM
";

fn accepted(alloc: Global, program: &str) -> Option<Accepted> {
    let site = TomlFile::parse(alloc, SITE).ok()?;
    match accept(alloc, &site, program, &[]) {
        Ok(Ok(given)) => Some(given),
        _ => None,
    }
}

fn begun(alloc: Global) -> Option<Service> {
    let limits = limits(1000, 500, 1);
    service_of(alloc, accepted(alloc, OLD)?, &[], 0, &[], &[], &[], limits).ok()
}

/// The new program has the number of the old one's variable and its own start value; or there was no memory, and the old one
/// stays with its own.
fn assert_put_in(rt: &impl Abort, alloc: Global, service: &mut Service, given: Accepted) {
    let Accepted {
        site: _site,
        verified,
    } = given;
    match replace_program(alloc, service, verified) {
        Ok(()) => assert_variables(rt, service, &[7, 5]),
        Err(fault) => {
            assert_same(rt, &fault, &CoreFault::OutOfMemory);
            assert_variables(rt, service, &[7, 7]);
        }
    }
}

fn assert_variables(rt: &impl Abort, service: &Service, wanted: &[i64]) {
    let machine = service.core().machine();
    let vars = machine.verified().image().vars.len();
    assert_same(rt, &vars, &wanted.len());
    for (i, number) in wanted.iter().enumerate() {
        if i < vars {
            assert_same(rt, &machine.var(i), number);
        }
    }
}

/// Run with each allocation refused in turn, it shows that the want of memory is told, and nothing else. It ends where it gets
/// no memory for what it begins with.
#[test]
fn a_program_is_put_in_or_memory_was_refused(rt: HostRuntime) {
    let alloc = rt.alloc();
    if let Some(mut service) = begun(alloc) {
        if let Some(given) = accepted(alloc, NEW) {
            assert_put_in(&rt, alloc, &mut service, given);
        }
    }
}

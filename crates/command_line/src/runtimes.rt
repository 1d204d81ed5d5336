//! What is asked of the runtime, as traits with many of its bounds: each runtime that has all of these has the trait.
use std::fs::File;
use std::net::Net;
use std::process::{Processes, SystemProcess};
use std::random::RandomSource;
use std::rt::Files;
use std::time::Clock;

/// What the loop of a service or a survey wants: also the clock, random numbers, and second processes that it may wait for.
pub trait LoopRuntime: Net
    + Clock
    + RandomSource
    + Processes<Started = SystemProcess>
    + Eprint
    + AllocGlobal {}

impl<
    R: Net + Clock + RandomSource + Processes<Started = SystemProcess> + Eprint + AllocGlobal,
> LoopRuntime for R {}

/// What the commands want together: also files, standard input and standard output.
pub trait CommandRuntime: LoopRuntime + Files<File = File> + Input + Print {}

impl<R: LoopRuntime + Files<File = File> + Input + Print> CommandRuntime for R {}

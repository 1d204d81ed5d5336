//! What is asked of the runtime, as a trait with several of its bounds: each runtime that has all of these has the trait.
use std::net::Net;
use std::process::Processes;

/// What a run wants: connections, second processes, and where its notes go.
pub trait RunRuntime: Net + Processes + Eprint + AllocGlobal {}

impl<R: Net + Processes + Eprint + AllocGlobal> RunRuntime for R {}

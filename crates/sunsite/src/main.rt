//! The program `sunsite`: the commands of a SunSpec Modbus gateway.
#![tactic(auto)]

use std::process::ExitCode;

fn main(rt: HostRuntime) -> ExitCode {
    ExitCode::from(command_line::obey_command_line(&rt))
}

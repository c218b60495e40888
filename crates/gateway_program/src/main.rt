//! The gateway over real files: `run SETTINGS LEFT_IN RIGHT_IN LEFT_OUT RIGHT_OUT REPORT`, or `make NUMBER COUNT REPORT`.
#![tactic(auto)]

use std::process::ExitCode;

fn main(rt: HostRuntime) -> ExitCode {
    ExitCode::from(gate_command::run(rt))
}

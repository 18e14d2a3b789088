//! `turbo`, the task runner for npm workspaces.
#![tactic(auto)]

use program::system_status;
use std::process::ExitCode;

fn main(rt: HostRuntime) -> ExitCode {
    ExitCode::from(system_status(&rt))
}

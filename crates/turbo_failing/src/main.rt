//! `turbo` once more, over a repository with a failing task.
#![tactic(auto)]

use program::system_status;
use std::process::ExitCode;

fn main(rt: HostRuntime) -> ExitCode {
    ExitCode::from(system_status(&rt))
}

//! The program `fdbrec`.
#![tactic(auto)]

use fr_cli::run_main;
use std::process::ExitCode;

fn main(rt: HostRuntime) -> ExitCode {
    run_main(&rt, &rt)
}

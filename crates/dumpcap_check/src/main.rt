//! `dumpcap` once more, for a stored run of refused words: a program that doesn't read its words fails it.
#![tactic(auto)]

use command_line::run_command_line;
use std::process::ExitCode;

fn main(rt: HostRuntime) -> ExitCode {
    ExitCode::from(run_command_line(&rt, rt))
}

//! `someipctl`: SOME/IP messages on the command line.
//!
//! What its words ask for, and how it ends, stands in `someipctl_cli`.
#![tactic(auto)]

use someipctl_cli::answer;
use std::process::ExitCode;

fn main(rt: HostRuntime) -> ExitCode {
    ExitCode::from(answer(&rt))
}

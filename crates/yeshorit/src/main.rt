// The command as a program. The built command is this one with c/signals.c beside it.
#![tactic(auto)]

use std::process::ExitCode;

fn main(rt: HostRuntime) -> ExitCode {
    ExitCode::from(command::run(&rt))
}

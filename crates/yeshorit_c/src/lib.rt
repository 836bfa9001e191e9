// The command for C, as far as the standard streams go: `int yeshorit_command(void)` cleans standard input to standard output, as the
// command does without arguments, and answers its exit status. Only a program's `main` is given arguments, files and the clock; the three
// streams have no bytes, and C passes nothing for them.
#![tactic(auto)]

use std::io::{Stderr, Stdin, Stdout};

#[unsafe(no_mangle)]
pub extern "C" fn yeshorit_command(from: Stdin, to: Stdout, errors: Stderr) -> i32 {
    i32::from(command::run_standard(from, to, errors))
}

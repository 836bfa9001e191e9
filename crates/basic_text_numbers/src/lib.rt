// The numbers that stand for flags, states and modes where plain numbers go over: in the exports, and in the answers of the
// comparison. Those of reasons are in `check_char`. Total. They are functions and no impl of From, which the language refuses here:
// neither the numbers nor the types are of this crate.
//     scanner.rt   the scanner's states
//     writer.rt    the writer's modes and states
#![tactic(auto)]

mod scanner;
mod writer;

ghost use Rattle.std.specs.Prelude.{◌≡◌};
ghost use Rattle.basic_text_numbers.specs.Numbers.{flag, flag_number};

pub use scanner::{state_number, state_of};
pub use writer::{mode_number, mode_of, writer_state_number, writer_state_of};

// 0 is false, and any other number true.
pub fn flag_of(n: u32) -> bool
    ensures { result ≡ flag n }
{
    n != 0
}

pub fn flag_number(b: bool) -> u32
    ensures { result ≡ flag_number b }
{
    u32::from(b)
}

// Storing what a step asks for: `buffer` and `escape_sequence` of the Rust. The characters to hand out go to the lent places from a
// place on, and those of an escape in progress are held beside what steps change, which is small without them.
ghost use Rattle.std.specs.Prelude.{◌≡◌, true, false, [], ◌+◌, ◌≤◌, eqb, length};
ghost use Rattle.text_output.specs.Writer.{sound};
ghost use Rattle.text_output.specs.Step.{write_step_of};
ghost use Rattle.text_output_write.specs.Inner.{machine_at, pushed, stored, progress};

use super::step::state_machine_char;
use check_char::BasicTextError;
use stretch::put_run;
use text_output::{Ground, Mode, State, Step};

// What steps change, without the held characters, and the place for the next character to hand out. That the state can have the held
// count is asked by each function and is no invariant of the type: `place_of`, which is public, asks nothing of its record.
#[derive(Clone, Copy, Debug, PartialEq, Eq)]
pub struct Place {
    pub state: State,
    pub held: usize,
    pub at: usize,
}

// Why a step is refused: by 4, for this reason, or by 6.
#[derive(Clone, Copy, Debug, PartialEq, Eq)]
pub enum Stop {
    Reason(BasicTextError),
    Limit,
}

// A step that is refused: where the steps stand, and why.
#[derive(Clone, Copy, Debug, PartialEq, Eq)]
pub struct Stopped {
    pub place: Place,
    pub stop: Stop,
}

// One character that is no 1A. Inner: asks for a held count that the state can have, and for room.
pub fn push(
    mode: Mode,
    w: Place,
    c: u32,
    escape: &mut [u32; 64],
    out: &mut [u32],
) -> Result<Place, Stopped>
    requires sub { eqb c 0x1A ≡ false }
    requires sound { sound (machine_at w escape.old) ≡ true }
    requires room { w.at + length (pushed (write_step_of mode (machine_at w escape.old) [] c)) ≤ length out.old }
    ensures { progress result escape.new out.new ≡ stored w.at out.old (write_step_of mode (machine_at w escape.old) [] c) }
{
    let held = w.held;
    let at = w.at;
    match state_machine_char(w.state, mode, held, c) {
        Step::Out(ground) => {
            out[at] = c;
            Ok(Place {
                state: State::Ground(ground),
                held: 0,
                at: at + 1,
            })
        }
        Step::Hold(next) => {
            escape[held] = c;
            Ok(Place {
                state: next,
                held: held + 1,
                at,
            })
        }
        Step::Whole => {
            let all = &escape[..];
            put_run(&all[0..held], out, at);
            out[at + held] = c;
            Ok(Place {
                state: State::Ground(Ground::Other),
                held: 0,
                at: at + held + 1,
            })
        }
        Step::NoColor => Err(Stopped {
            place: w,
            stop: Stop::Reason(BasicTextError::Escape),
        }),
        Step::Unrecognized => Err(Stopped {
            place: w,
            stop: Stop::Reason(BasicTextError::UnrecognizedEscape),
        }),
        Step::Full => Err(Stopped {
            place: w,
            stop: Stop::Limit,
        }),
    }
}

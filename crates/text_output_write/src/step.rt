// One character in one state: `state_machine_char` of the Rust without its stores. A step is told the mode, the state and how many
// characters are held, and answers what is to be done.
ghost use Rattle.std.specs.Prelude.{◌≡◌};
ghost use Rattle.text_output.specs.Step.{is_color, ground_of, ground_asked, esc_asked, csi_asked, asked_in};
ghost use Rattle.text_output_write.specs.Inner.{is_crlf};

use scalars::ESC;
use text_output::{Ground, Mode, State, Step, TextOutput};
use text_utils::is_basic_text_end;

// Whether color escapes are let through.
fn is_color(mode: Mode) -> bool
    ensures { result ≡ is_color mode }
{
    matches!(mode, Mode::Color)
}

// Whether a newline ends a part.
pub fn is_crlf(mode: Mode) -> bool
    ensures { result ≡ is_crlf mode }
{
    matches!(mode, Mode::Crlf)
}

// What stands last after a character.
#[tactic(auto, unfolding(text_output::specs::Step::ground_of))]
fn ground_of(c: u32) -> Ground
    ensures { result ≡ ground_of c }
{
    if c == 0xa {
        Ground::Newline
    } else if is_basic_text_end(c) {
        Ground::Other
    } else {
        Ground::ZwjOrPrepend
    }
}

// Outside an escape.
fn ground_step(color: bool, c: u32) -> Step
    ensures { result ≡ ground_asked color c }
{
    if c == ESC {
        if color {
            Step::Hold(State::Esc)
        } else {
            Step::NoColor
        }
    } else {
        Step::Out(ground_of(c))
    }
}

// After ESC.
fn esc_step(c: u32) -> Step
    ensures { result ≡ esc_asked c }
{
    if c == 0x5b {
        Step::Hold(State::Csi)
    } else {
        Step::Unrecognized
    }
}

// In a sequence begun by ESC `[`.
fn csi_step(held: usize, c: u32) -> Step
    ensures { result ≡ csi_asked held c }
{
    if !matches!(c, 0x20..=0x3f | 0x6d) {
        return Step::Unrecognized;
    }
    if held < TextOutput::ESCAPE_SEQUENCE_SIZE {
        if c == 0x6d {
            Step::Whole
        } else {
            Step::Hold(State::Csi)
        }
    } else {
        Step::Full
    }
}

// Total; 1A, which stands for a refused character, is for the caller.
pub fn state_machine_char(state: State, mode: Mode, held: usize, c: u32) -> Step
    ensures { result ≡ asked_in state mode held c }
{
    match state {
        State::Ground(_) => ground_step(is_color(mode), c),
        State::Esc => esc_step(c),
        State::Csi => csi_step(held, c),
    }
}

// How a write ends: what its steps stored is handed out, or stays kept. `write_buffer` of the Rust, and what `write_str` does on an
// error.
ghost use Rattle.std.specs.Prelude.{◌≡◌, true, [], ◌∷◌, get_or, Ok, Err};
ghost use Rattle.page.specs.Page.{accepted};
ghost use Rattle.text_output.specs.Writer.{machine_of, wrote_numbers, wrote_tells, written_outcome};
ghost use Rattle.text_output_write.specs.Inner.{machine_at, stop_numbers, progress, start_or_none, kept_by, end_of};

use super::store::{Place, Stop, Stopped};
use common::Refusal;
use text_output::{Ground, Mode, State, TextOutput, WriteError, Written};
use text_utils::is_basic_text_start;

// Where a write begins: behind the kept characters.
#[tactic(auto, unfolding(crate::specs::Inner::machine_at))]
pub fn place_of(w: TextOutput) -> Place
    ensures escape_sequence_value { machine_at result w.escape_sequence ≡ machine_of w }
    ensures at_value { result.at ≡ w.kept }
{
    Place {
        state: w.state,
        held: w.held,
        at: w.kept,
    }
}

// The first place, 0 where there is none.
pub fn first_of(out: &[u32]) -> u32
    ensures { result ≡ get_or out.now 0 0 }
{
    out.first().copied().unwrap_or(0)
}

// Whether n characters to hand out, the first of them given, are none or begin with a start. Inner: asks for an accepted page.
fn start_or_none(page: &[u32], n: usize, first: u32) -> bool
    requires { accepted page.now ≡ true }
    ensures { result ≡ start_or_none page.now n first }
{
    n == 0 || is_basic_text_start(page, first)
}

// The characters up to the place are handed out, or refused by 5 and kept. Inner, as `start_or_none`.
#[tactic(auto, unfolding(crate::specs::Inner::machine_at))]
fn hand_out(
    page: &[u32],
    mode: Mode,
    expect_starter: bool,
    w: Place,
    escape: [u32; 64],
    first: u32,
) -> Written
    requires { accepted page.now ≡ true }
    ensures { written_outcome result (first ∷ []) ≡ end_of page.now mode expect_starter (progress (Ok w) escape (first ∷ [])) }
{
    if expect_starter & !start_or_none(page, w.at, first) {
        Written {
            answer: Err(WriteError::Abandon(Refusal::NoStart)),
            next: TextOutput {
                mode,
                expect_starter: false,
                state: State::Ground(Ground::Newline),
                kept: w.at,
                held: 0,
                escape_sequence: escape,
            },
        }
    } else {
        Written {
            answer: Ok(w.at),
            next: TextOutput {
                mode,
                expect_starter: false,
                state: w.state,
                kept: 0,
                held: w.held,
                escape_sequence: escape,
            },
        }
    }
}

// What a refused step answers.
fn refused(stop: Stop) -> WriteError
    ensures numbers { wrote_numbers (Err result) ≡ stop_numbers stop }
    ensures tells { wrote_tells (Err result) ≡ true }
{
    match stop {
        Stop::Reason(e) => WriteError::Unwritable(e),
        Stop::Limit => WriteError::Abandon(Refusal::EscapeFull),
    }
}

// A refused step: the characters before it stay kept.
#[tactic(auto, unfolding(crate::specs::Inner::machine_at))]
fn keep(mode: Mode, expect_starter: bool, stopped: Stopped, escape: [u32; 64]) -> Written
    ensures { (written_outcome result []).given ≡ kept_by mode expect_starter (progress (Err stopped) escape []) }
{
    Written {
        answer: Err(refused(stopped.stop)),
        next: TextOutput {
            mode,
            expect_starter,
            state: State::Ground(Ground::Newline),
            kept: stopped.place.at,
            held: 0,
            escape_sequence: escape,
        },
    }
}

// How a write ends, by where its steps led and the first place after them. Inner, as `start_or_none`. Compiled into its callers, so that
// no record is copied on the way, for which an archive for C would need a function from outside.
#[inline(always)]
pub fn end_write(
    page: &[u32],
    mode: Mode,
    expect_starter: bool,
    pushed: Result<Place, Stopped>,
    escape: [u32; 64],
    first: u32,
) -> Written
    requires { accepted page.now ≡ true }
    ensures { written_outcome result (first ∷ []) ≡ end_of page.now mode expect_starter (progress pushed escape (first ∷ [])) }
{
    match pushed {
        Ok(w) => hand_out(page, mode, expect_starter, w, escape, first),
        Err(stopped) => keep(mode, expect_starter, stopped, escape),
    }
}

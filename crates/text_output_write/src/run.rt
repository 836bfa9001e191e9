// The steps of a write, character by character: each is checked, a refused one becoming 1A, then isolated, then stepped and stored.
// `normal_write_str` and `crlf_write_str` of the Rust; its chain of iterators is a turn for each character.
ghost use Rattle.std.specs.Prelude.{◌≡◌, true, false, [], ◌∷◌, ◌++◌, ◌+◌, ◌≤◌, eqb, length, Ok};
ghost use Rattle.scalars.specs.Utf8.{chars_of};
ghost use Rattle.page.specs.Page.{accepted};
ghost use Rattle.check_char.specs.Check.{error_numbers, reason_numbers};
ghost use Rattle.isolate_unassigned.specs.Meaning.{joiner};
ghost use Rattle.isolate_unassigned.specs.Inner.{puts, isolate_step_of, after, last_owed};
ghost use Rattle.text_output.specs.Writer.{sound};
ghost use Rattle.text_output.specs.Step.{refused_in, and_then, steps_of};
ghost use Rattle.text_output.specs.Write.{put_crlf, run_in};
ghost use Rattle.text_output_write.specs.Inner.{machine_at, pushed, stored, stop_numbers, progress, handed_on, turn_of, isolator_after};

use super::step::is_crlf;
use super::store::{Place, Stop, Stopped, push};
use check_char::{BasicTextError, Categorize, Categorized};
use isolate_unassigned::{IsolateUnassigned, Isolated};
use scalars::{CGJ, utf8_step};
use text_output::{Ground, Mode, State};

// ---- before a character
// Whether the isolator puts 34F before a character, and the isolator after it.
#[derive(Clone, Copy)]
struct Ahead {
    put: bool,
    isolator: IsolateUnassigned,
}

// Inner: asks for an accepted page.
#[tactic(auto, unfolding(isolate_unassigned::specs::Inner::isolate_step_of))]
fn look_ahead(page: &[u32], isolator: IsolateUnassigned, c: u32) -> Ahead
    requires { accepted page.now ≡ true }
    ensures put_value { result.put ≡ puts page.now isolator c }
    ensures isolator_value { result.isolator ≡ after (isolate_step_of page.now isolator c) }
{
    match isolator.step(page, c) {
        Isolated::One(_, next) => Ahead {
            put: false,
            isolator: next,
        },
        Isolated::Two(_, _, next) => Ahead {
            put: true,
            isolator: next,
        },
    }
}

// 34F, where it is put. Inner, as `push`.
fn push_joiner(
    mode: Mode,
    w: Place,
    put: bool,
    escape: &mut [u32; 64],
    out: &mut [u32],
) -> Result<Place, Stopped>
    requires sound { sound (machine_at w escape.old) ≡ true }
    requires room { w.at + length (pushed (steps_of mode (machine_at w escape.old) [] (joiner put))) ≤ length out.old }
    ensures { progress result escape.new out.new
        ≡ stored w.at out.old (steps_of mode (machine_at w escape.old) [] (joiner put)) }
{
    if put {
        push(mode, w, CGJ, escape, out)
    } else {
        Ok(w)
    }
}

// ---- the character
// Why a refused character stops: for its reason outside an escape, for reason 15 inside.
fn stop_in(state: State, e: BasicTextError) -> Stop
    ensures { stop_numbers result ≡ 4 ∷ refused_in state (error_numbers e) }
{
    match state {
        State::Ground(_) => Stop::Reason(e),
        State::Esc | State::Csi => Stop::Reason(BasicTextError::UnrecognizedEscape),
    }
}

// The character that `Categorize` hands on. Total.
fn handed_on(found: Categorized) -> u32
    ensures { result ≡ handed_on found }
{
    match found {
        Categorized::Char(c, _) | Categorized::Sub(c, _) => c,
    }
}

// 34F, where it is put, and then a character that the check accepts. Inner, as `push`.
fn push_isolated(
    mode: Mode,
    w: Place,
    put: bool,
    c: u32,
    escape: &mut [u32; 64],
    out: &mut [u32],
) -> Result<Place, Stopped>
    requires sub { eqb c 0x1A ≡ false }
    requires sound { sound (machine_at w escape.old) ≡ true }
    requires room { w.at + length (pushed (steps_of mode (machine_at w escape.old) [] (joiner put ++ c ∷ []))) ≤ length out.old }
    ensures { progress result escape.new out.new
        ≡ stored w.at out.old (steps_of mode (machine_at w escape.old) [] (joiner put ++ c ∷ [])) }
{
    let next = push_joiner(mode, w, put, escape, out)?;
    push(mode, next, c, escape, out)
}

// 34F, where it is put, and then 1A, which stops. Inner, as `push`, and asks for a kept reason, which stands behind every 1A.
fn stop_isolated(
    mode: Mode,
    w: Place,
    put: bool,
    kept: Categorize,
    escape: &mut [u32; 64],
    out: &mut [u32],
) -> Result<Place, Stopped>
    requires kept { kept.error ≡ Ok tt → ⊥ }
    requires sound { sound (machine_at w escape.old) ≡ true }
    requires room { w.at + length (pushed (steps_of mode (machine_at w escape.old) (reason_numbers kept.error) (joiner put ++ 0x1A ∷ []))) ≤ length out.old }
    ensures { progress result escape.new out.new
        ≡ stored w.at out.old (steps_of mode (machine_at w escape.old) (reason_numbers kept.error) (joiner put ++ 0x1A ∷ [])) }
{
    let place = push_joiner(mode, w, put, escape, out)?;
    let stop = stop_in(place.state, kept.error.unwrap_err());
    Err(Stopped { place, stop })
}

// ---- the end of a line
// 34F, where it is owed, and then 0D 0A, from any state. Inner, as `push`.
fn line_end(
    mode: Mode,
    w: Place,
    owed: bool,
    escape: &mut [u32; 64],
    out: &mut [u32],
) -> Result<Place, Stopped>
    requires sound { sound (machine_at w escape.old) ≡ true }
    requires room { w.at + length (pushed (and_then (steps_of mode (machine_at w escape.old) [] (joiner owed)) put_crlf)) ≤ length out.old }
    ensures { progress result escape.new out.new
        ≡ stored w.at out.old (and_then (steps_of mode (machine_at w escape.old) [] (joiner owed)) put_crlf) }
{
    let next = push_joiner(mode, w, owed, escape, out)?;
    let at = next.at;
    out[at] = 0xd;
    out[at + 1] = 0xa;
    Ok(Place {
        state: State::Ground(Ground::Newline),
        held: 0,
        at: at + 2,
    })
}

// ---- a turn
// What a turn came to, and the isolator after it.
#[derive(Clone, Copy)]
pub struct Turned {
    pub pushed: Result<Place, Stopped>,
    pub isolator: IsolateUnassigned,
}

// One character of a write. Inner, as `push`, and asks for an accepted page.
pub fn turn(
    page: &[u32],
    mode: Mode,
    w: Place,
    isolator: IsolateUnassigned,
    c: u32,
    escape: &mut [u32; 64],
    out: &mut [u32],
) -> Turned
    requires page { accepted page.now ≡ true }
    requires sound { sound (machine_at w escape.old) ≡ true }
    requires room { w.at + length (pushed (turn_of mode page.now (machine_at w escape.old) isolator c)) ≤ length out.old }
    ensures out_after { progress result.pushed escape.new out.new
        ≡ stored w.at out.old (turn_of mode page.now (machine_at w escape.old) isolator c) }
    ensures isolator_value { result.isolator ≡ isolator_after mode page.now isolator c }
{
    if is_crlf(mode) & (c == 0xa) {
        Turned {
            pushed: line_end(mode, w, isolator.finish(), escape, out),
            isolator: IsolateUnassigned::new(),
        }
    } else {
        let found = Categorize::new().step(c);
        let ahead = look_ahead(page, isolator, handed_on(found));
        match found {
            Categorized::Char(same, _) => Turned {
                pushed: push_isolated(mode, w, ahead.put, same, escape, out),
                isolator: ahead.isolator,
            },
            Categorized::Sub(_, kept) => Turned {
                pushed: stop_isolated(mode, w, ahead.put, kept, escape, out),
                isolator: ahead.isolator,
            },
        }
    }
}

// The 34F that the isolator owes at the end. Inner, as `push`.
pub fn finish(
    mode: Mode,
    w: Place,
    isolator: IsolateUnassigned,
    escape: &mut [u32; 64],
    out: &mut [u32],
) -> Result<Place, Stopped>
    requires sound { sound (machine_at w escape.old) ≡ true }
    requires room { w.at + length (pushed (steps_of mode (machine_at w escape.old) [] (last_owed isolator))) ≤ length out.old }
    ensures { progress result escape.new out.new
        ≡ stored w.at out.old (steps_of mode (machine_at w escape.old) [] (last_owed isolator)) }
{
    push_joiner(mode, w, isolator.finish(), escape, out)
}

// ---- a write
// The steps of a write of characters. Inner, as `turn`. What is left of them, from the place at hand on, leads to the same end.
pub fn run(
    page: &[u32],
    mode: Mode,
    start: Place,
    chars: &[u32],
    escape: &mut [u32; 64],
    out: &mut [u32],
) -> Result<Place, Stopped>
    requires page { accepted page.now ≡ true }
    requires sound { sound (machine_at start escape.old) ≡ true }
    requires room { start.at + length (pushed (run_in mode page.now (machine_at start escape.old) chars.now)) ≤ length out.old }
    ensures { progress result escape.new out.new
        ≡ stored start.at out.old (run_in mode page.now (machine_at start escape.old) chars.now) }
{
    let mut w = start;
    let mut isolator = IsolateUnassigned::new();
    for &c in chars {
        let turned = turn(page, mode, w, isolator, c, escape, out);
        w = turned.pushed?;
        isolator = turned.isolator;
    }
    finish(mode, w, isolator, escape, out)
}

// The steps of a write of the longest valid prefix. Inner, as `run`. The loop ends where no character begins.
pub fn run_bytes(
    page: &[u32],
    mode: Mode,
    start: Place,
    bytes: &[u8],
    escape: &mut [u32; 64],
    out: &mut [u32],
) -> Result<Place, Stopped>
    requires page { accepted page.now ≡ true }
    requires sound { sound (machine_at start escape.old) ≡ true }
    requires room { start.at + length (pushed (run_in mode page.now (machine_at start escape.old) (chars_of bytes.now))) ≤ length out.old }
    ensures { progress result escape.new out.new
        ≡ stored start.at out.old (run_in mode page.now (machine_at start escape.old) (chars_of bytes.now)) }
{
    let mut w = start;
    let mut isolator = IsolateUnassigned::new();
    let mut place = 0;
    // No index: the step answers the place after a character.
    while let Some((c, next_place)) = utf8_step(bytes, place) {
        place = next_place;
        let turned = turn(page, mode, w, isolator, c, escape, out);
        w = turned.pushed?;
        isolator = turned.isolator;
    }
    finish(mode, w, isolator, escape, out)
}

// One character in one state: the `match` of `process_raw_string` in text_input.rs. What the Rust pushes to its queue is the
// answer here: a lead, which is at most one character, and an image. A character that ends what is pending without being part of
// it is taken by the ground state in the same step, where the Rust goes round its inner loop.
ghost use Rattle.std.specs.Prelude.{◌≡◌, true};
ghost use Rattle.page.specs.Page.{accepted};
ghost use Rattle.text_input.specs.Sets.{optional_line};
ghost use Rattle.text_input.specs.Step.{leave_of, esc_leave, csi_leave, meet_of, made_of, ground_of, scan_step_of};

use super::{Options, State, TextInput};
use replace::{Replaced, replace_by};
use scalars::{ESC, FF, LS, NEL, PS};
use text_input_parts::queue::{guard, last_image, last_lead};
use text_input_parts::sets::{is_final, is_newline_char, is_parameter, is_string_end, up_to_del};

// What a character does to what is pending before it.
#[derive(Clone, Copy, Debug, PartialEq, Eq)]
pub enum Left {
    // It is part of it: it gives nothing and leaves this state.
    Part(State),
    // It is the 0A of 0D 0A.
    Newline,
    // Nothing is pending: the ground state takes it.
    Goes,
    // An escape ends without it and gives nothing, and the ground state takes it. An ESC so opens the next escape, where the Rust has
    // arms of its own.
    Ends,
    // This character is given for what was pending, and then the ground state takes it.
    After(u32),
    // A page run ends at 0D or 0A and gives nothing, and the ground state takes it.
    Dropped,
}

// What the ground state does with a character.
#[derive(Clone, Copy, Debug, PartialEq, Eq)]
pub enum Met {
    // It ends a line.
    Line,
    // It opens this state.
    Opens(State),
    // It is replaced.
    Other,
}

// What a step appends, and the record after it.
#[derive(Clone, Copy, Debug, PartialEq, Eq)]
pub struct Step {
    pub lead: Option<u32>,
    pub image: Option<Replaced>,
    pub next: TextInput,
}

// 85, 2028 or 2029, where its option is on. Inner; total.
#[tactic(auto, unfolding(crate::specs::Sets::optional_line))]
pub fn is_optional_line(options: Options, c: u32) -> bool
    ensures { result ≡ optional_line options c }
{
    (c == NEL) & options.nel_compatibility | ((c == LS) | (c == PS)) & options.lsps_compatibility
}

// After ESC.
fn leave_esc(c: u32) -> Left
    ensures { result ≡ esc_leave c }
{
    match c {
        0x5b => Left::Part(State::CsiStart),
        0x5d => Left::Part(State::Osc),
        _ => {
            if is_final(c) {
                Left::Part(State::Ground(false))
            } else {
                Left::Ends
            }
        }
    }
}

// In a sequence begun by ESC `[`.
fn leave_csi(c: u32) -> Left
    ensures { result ≡ csi_leave c }
{
    if is_parameter(c) {
        Left::Part(State::Csi)
    } else if is_final(c) {
        Left::Part(State::Ground(false))
    } else {
        Left::Ends
    }
}

// In each state. Inner; total.
// "Guarded matches: matches on a local, then ifs."
#[tactic(auto, unfolding(crate::specs::Step::leave_of))]
pub fn leave(state: State, c: u32) -> Left
    ensures { result ≡ leave_of state c }
{
    match state {
        State::Ground(_) => Left::Goes,
        State::Cr => {
            if c == 0xa {
                Left::Newline
            } else {
                Left::After(0xa)
            }
        }
        State::Ff => {
            if c == FF {
                Left::Part(State::Ff)
            } else if is_newline_char(c) {
                Left::Dropped
            } else {
                Left::After(0x20)
            }
        }
        State::Esc => leave_esc(c),
        State::CsiStart => {
            if c == 0x5b {
                Left::Part(State::Linux)
            } else {
                leave_csi(c)
            }
        }
        State::Csi => leave_csi(c),
        State::Osc => {
            if is_string_end(c) {
                Left::Part(State::Ground(false))
            } else if c == ESC {
                Left::Ends
            } else {
                Left::Part(State::Osc)
            }
        }
        State::Linux => {
            if up_to_del(c) {
                Left::Part(State::Ground(false))
            } else {
                Left::Ends
            }
        }
    }
}

#[tactic(auto, unfolding(crate::specs::Step::meet_of))]
fn meet(options: Options, c: u32) -> Met
    ensures { result ≡ meet_of options c }
{
    match c {
        0xa => Met::Line,
        0xd => Met::Opens(State::Cr),
        FF => Met::Opens(State::Ff),
        ESC => Met::Opens(State::Esc),
        _ => {
            if is_optional_line(options, c) {
                Met::Line
            } else {
                Met::Other
            }
        }
    }
}

impl TextInput {
    // The step that appends this and leaves this state and expectation.
    fn made(self, lead: Option<u32>, image: Option<Replaced>, state: State, expect: bool) -> Step
        ensures { result ≡ made_of self lead image state expect }
    {
        Step {
            lead,
            image,
            next: TextInput {
                state,
                expect_starter: expect,
                last: last_image(last_lead(self.last, lead), image),
                ..self
            },
        }
    }

    // The ground state takes a character, after a lead. Inner: asks for an accepted page.
    fn ground(self, page: &[u32], options: Options, c: u32, lead: Option<u32>, expect: bool) -> Step
        requires { accepted page.now ≡ true }
        ensures { result ≡ ground_of page.now options self c lead expect }
    {
        match meet(options, c) {
            Met::Line => self.made(lead, Some(Replaced::One(0xa)), State::Ground(true), false),
            Met::Opens(state) => self.made(lead, None, state, expect),
            Met::Other => {
                let image = replace_by(options.units_compatibility, c);
                let guarded = guard(page, lead, expect, image);
                self.made(guarded, Some(image), State::Ground(false), false)
            }
        }
    }

    // One character. Inner: asks for an accepted page.
    #[tactic(auto, unfolding(crate::specs::Step::scan_step_of))]
    pub fn step(self, page: &[u32], options: Options, c: u32) -> Step
        requires { accepted page.now ≡ true }
        ensures { result ≡ scan_step_of page.now options self c }
    {
        let (lead, expect) = match leave(self.state, c) {
            Left::Part(part) => {
                return self.made(None, None, part, self.expect_starter);
            }
            Left::Newline => {
                return self.made(None, Some(Replaced::One(0xa)), State::Ground(true), false);
            }
            Left::Goes | Left::Ends => (None, self.expect_starter),
            Left::After(a) => (Some(a), false),
            Left::Dropped => (None, false),
        };
        self.ground(page, options, c, lead, expect)
    }
}

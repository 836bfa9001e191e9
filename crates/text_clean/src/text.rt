// One character of a text: the scanner's step, its output encoded into the places, and what is counted of it. A leading U+FEFF is
// dropped, and with `lines` a 0A ends its text and begins the next.
ghost use Rattle.std.specs.Prelude.{◌≡◌, true, ◌+◌, ◌≤◌, length};
ghost use Rattle.std.proofs.lemmas.List.Edits.{sets};
ghost use Rattle.scalars.specs.Chars.{is_char};
ghost use Rattle.scalars.specs.Utf8.{encode_all};
ghost use Rattle.page.specs.Page.{accepted};
ghost use Rattle.text_clean.specs.Text.{bit, fresh_text, begun, escaping, goes_on, in_escape, losable, take_of, closed_of};
ghost use Rattle.text_clean.specs.Inner.{Fits, tallied, taken_by, ready_for, passed_text, ended_text};

use super::put::{put_image, put_lead};
use scalars::{BOM, ESC};
use text_input::step::{Left, is_optional_line, leave};
use text_input::{Options, State, TextInput, is_ground};

// A text so far: the scanner's record, and whether the last character was a 0D that an escape took, which is a lost line end unless 0A
// follows.
#[derive(Clone, Copy, Debug, PartialEq, Eq)]
pub struct Text {
    pub input: TextInput,
    pub cr: bool,
}

// What is counted so far: characters read, bytes that U+FFFD stands for, characters dropped, line ends lost.
#[derive(Clone, Copy, Debug, PartialEq, Eq, Default)]
pub struct Tally {
    pub read: usize,
    pub replaced: usize,
    pub dropped: usize,
    pub lost: usize,
}

// How far the places are written, the text, and what is counted.
#[derive(Clone, Copy, Debug, PartialEq, Eq)]
pub struct Taken {
    pub at: usize,
    pub text: Text,
    pub tally: Tally,
}

// Whether what is pending is an escape.
fn is_escape(state: State) -> bool
    ensures { result ≡ escaping state }
{
    !matches!(state, State::Ground(_) | State::Cr | State::Ff)
}

// Whether the character goes on with what is pending.
fn is_part(left: Left) -> bool
    ensures { result ≡ goes_on left }
{
    matches!(left, Left::Part(_))
}

// Whether c, met in this state, is part of an escape: it begins one, or goes on with one.
#[tactic(auto, unfolding(crate::specs::Text::in_escape))]
fn in_escape(state: State, c: u32) -> bool
    ensures { result ≡ in_escape state c }
{
    c == ESC || is_escape(state) && is_part(leave(state, c))
}

// A line end of one character, but for 0D, that an escape would lose: with `lines` 0A ends its line nevertheless.
fn is_losable(options: Options, lines: bool, c: u32) -> bool
    ensures { result ≡ losable options lines c }
{
    (c == 0xa) & !lines | is_optional_line(options, c)
}

// The scanner's record once a character has come: a later U+FEFF is not dropped.
fn begin(input: TextInput) -> TextInput
    ensures { result ≡ begun input }
{
    TextInput {
        at_start: false,
        ..input
    }
}

// What is counted, with one character more. Inner: asks that the counts fit.
fn tally_char(t: Tally, dropped: usize, lost: usize) -> Tally
    requires { Fits (tallied t 1 dropped lost) }
    ensures { result ≡ tallied t 1 dropped lost }
{
    Tally {
        read: t.read + 1,
        dropped: t.dropped + dropped,
        lost: t.lost + lost,
        ..t
    }
}

// What is counted, with line ends lost at the end of a text. Inner: asks that the counts fit.
fn tally_lost(t: Tally, lost: usize) -> Tally
    requires { Fits (tallied t 0 0 lost) }
    ensures { result ≡ tallied t 0 0 lost }
{
    Tally {
        lost: t.lost + lost,
        ..t
    }
}

impl Text {
    // A text before its first character.
    pub fn new() -> Self
        ensures { result ≡ fresh_text }
    {
        Self {
            input: TextInput::new(),
            cr: false,
        }
    }

    // Whether a plain character that begins with this byte comes out as it goes in: nothing is pending, and either it is ASCII, which
    // is always a start, or no start is expected and no U+FEFF is to be dropped.
    pub fn is_ready(self, b: u8) -> bool
        ensures { result ≡ ready_for self b }
    {
        let input = self.input;
        is_ground(input.state) & !self.cr & (b.is_ascii() | !input.expect_starter & !input.at_start)
    }

    // The text after plain characters, by the last of them.
    pub fn passed(self, c: u32) -> Self
        ensures { result ≡ passed_text self c }
    {
        Self {
            input: TextInput {
                state: State::Ground(false),
                expect_starter: false,
                at_start: false,
                last: c,
                ..self.input
            },
            cr: false,
        }
    }

    // The text after a line end where nothing was pending before it: with `lines` the next one.
    pub fn ended(self, lines: bool) -> Self
        ensures { result ≡ ended_text self lines }
    {
        if lines {
            return Text::new();
        }
        Self {
            input: TextInput {
                state: State::Ground(true),
                expect_starter: false,
                at_start: false,
                last: 0xa,
                ..self.input
            },
            cr: false,
        }
    }

    // One character, its output from place k on. Inner: asks for an accepted page, for a character, for room, and that the counts fit.
    pub fn take(
        self,
        page: &[u32],
        options: Options,
        lines: bool,
        c: u32,
        out: &mut [u8],
        k: usize,
        tally: Tally,
    ) -> Taken
        requires page { accepted page.now ≡ true }
        requires char { is_char c ≡ true }
        requires room { k + length (encode_all (take_of page.now options lines self c).out) ≤ length out.old }
        requires fits { Fits (taken_by k tally 1 (take_of page.now options lines self c)).tally }
        ensures taken { result ≡ taken_by k tally 1 (take_of page.now options lines self c) }
        ensures places { out.new ≡ sets out.old k (encode_all (take_of page.now options lines self c).out) }
    {
        let input = begin(self.input);
        let before = usize::from(self.cr & (c != 0xa));
        if self.input.at_start & (c == BOM) {
            return Taken {
                at: k,
                text: Text { input, cr: false },
                tally: tally_char(tally, 1, before),
            };
        }
        let part = in_escape(self.input.state, c);
        let lost = before + usize::from(part & is_losable(options, lines, c));
        let sofar = tally_char(tally, usize::from(part), lost);
        let step = input.step(page, options, c);
        let then = put_lead(step.lead, out, k);
        let at = put_image(step.image, out, then);
        if lines & (c == 0xa) {
            let last = Text {
                input: step.next,
                cr: false,
            };
            let closed = last.close(true, out, at, sofar);
            return Taken {
                text: Text::new(),
                ..closed
            };
        }
        Taken {
            at,
            text: Text {
                input: step.next,
                cr: part & (c == 0xd),
            },
            tally: sofar,
        }
    }

    // The text ends, or is pushed: what is pending, and what ends a text, from place k on. Inner: asks for room, and that the counts
    // fit.
    #[tactic(auto, using(common::proofs::Lists::sets_append, scalars::proofs::Texts::encode_append))]
    pub fn close(self, eof: bool, out: &mut [u8], k: usize, tally: Tally) -> Taken
        requires room { k + length (encode_all (closed_of self eof).out) ≤ length out.old }
        requires fits { Fits (taken_by k tally 0 (closed_of self eof)).tally }
        ensures taken { result ≡ taken_by k tally 0 (closed_of self eof) }
        ensures places { out.new ≡ sets out.old k (encode_all (closed_of self eof).out) }
    {
        let ending = self.input.ending(eof);
        let after_lead = put_lead(ending.lead, out, k);
        let after_mark = put_lead(ending.mark, out, after_lead);
        let at = put_lead(ending.newline, out, after_mark);
        Taken {
            at,
            text: Text {
                input: ending.next,
                cr: false,
            },
            tally: tally_lost(tally, usize::from(self.cr)),
        }
    }
}

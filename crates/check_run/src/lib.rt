// The check of a run of characters: whether it keeps the rules of document 02, A.1, and where it first does not. A cleaned text keeps
// them, unless it holds excepted characters. They are those of `is_basic_text` in internals/src/text_utils.rs without normalisation, and
// a newline last; the Rust answers whether they hold, this the place and the kind of the first fault. The run is only read: plain
// characters are passed by stretches (crate `stretch`), any other by the check of one character.
#![tactic(auto)]

ghost use Rattle.std.specs.Prelude.{◌≡◌, true};
ghost use Rattle.page.specs.Page.{accepted};
ghost use Rattle.check_run.specs.Rules.{allowed};
ghost use Rattle.check_run.specs.Check.{faults, first_numbers, found_numbers, verdict_numbers, check_run_of};
ghost use Rattle.check_run.specs.Inner.{AllowedUpTo};

use check_char::check_basic_text_char;
use common::Refusal;
use page::is_accepted;
use scalars::{ESC, are_chars};
use stretch::{ascii_or, first_gap, is_sought, next_gap, plain_end};
use text_utils::{is_basic_text_end, is_basic_text_start};

// What is wrong at a place. Faults at one place are told in this order.
#[derive(Clone, Copy, Debug, PartialEq, Eq)]
pub enum FaultKind {
    // The check refuses the character, or it is ESC.
    Char,
    // It is the first, and no start.
    Start,
    // It is the last, and no end.
    End,
    // It is the last, and no newline.
    Newline,
}

// What the check tells: the place of a fault, counted from 0, and its kind.
#[derive(Clone, Copy, Debug, PartialEq, Eq)]
pub struct Fault {
    pub place: usize,
    pub kind: FaultKind,
}

impl Fault {
    fn new(place: usize, kind: FaultKind) -> Self
        ensures { (result.place ≡ place) × (result.kind ≡ kind) }
    {
        Fault { place, kind }
    }
}

// Whether the check accepts c, and c is no ESC. Total: it does not ask whether c is a character.
fn is_allowed(c: u32) -> bool
    ensures { result ≡ allowed c }
{
    match check_basic_text_char(c) {
        Ok(()) => c != ESC,
        Err(_) => false,
    }
}

// The place of the first character that is not allowed, and the length of the run where all are. Total. The loop stays a `while`: a turn
// takes as many characters as `plain_end` answers, or one.
fn allowed_end(run: &[u32]) -> usize
    ensures { AllowedUpTo run.now result }
{
    let mut gap = first_gap();
    let mut i = 0;
    while i < run.len() {
        let c = run[i];
        if is_sought(ascii_or(gap), c) {
            i = plain_end(run, i + 1, gap);
        } else {
            if !is_allowed(c) {
                return i;
            }
            gap = next_gap(gap, c);
            i += 1;
        }
    }
    i
}

// The first fault of a run, none where every rule holds. The faults of the first character come before all others, those of the last one's class after every
// character that is not allowed. Inner: asks for an accepted page.
fn first_fault(page: &[u32], run: &[u32]) -> Option<Fault>
    requires { accepted page.now ≡ true }
    ensures { found_numbers result ≡ first_numbers (faults page.now run.now) }
{
    let n = run.len();
    if n == 0 {
        return None;
    }
    if !is_allowed(run[0]) {
        return Some(Fault::new(0, FaultKind::Char));
    }
    if !is_basic_text_start(page, run[0]) {
        return Some(Fault::new(0, FaultKind::Start));
    }
    let at = allowed_end(run);
    if at < n {
        return Some(Fault::new(at, FaultKind::Char));
    }
    let last = run[n - 1];
    if !is_basic_text_end(last) {
        return Some(Fault::new(n - 1, FaultKind::End));
    }
    if last != 0xa {
        return Some(Fault::new(n - 1, FaultKind::Newline));
    }
    None
}

// The first fault of a run of characters, and none where it keeps the rules: "We need a check over a lent run of characters".
// Total: refuses 2, then 1. Nothing is written.
#[tactic(auto, unfolding(crate::specs::Check::check_run_of))]
pub fn check_run(page: &[u32], run: &[u32]) -> Result<Option<Fault>, Refusal>
    ensures { verdict_numbers result ≡ check_run_of page.now run.now }
{
    if !is_accepted(page) {
        return Err(Refusal::WrongPage);
    }
    if !are_chars(run) {
        return Err(Refusal::NotAChar);
    }
    Ok(first_fault(page, run))
}

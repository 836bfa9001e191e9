// Isolation of unassigned characters: ports `internals/src/isolate_unassigned.rs`.
// The iterator becomes a record by value whose step answers all that it gives out for one character, so `deferred` is gone; what
// the iterator gives after the last character is `finish`. A run goes by stretches of assigned characters that are copied (crate
// `stretch`), and by a step for any other character.
#![tactic(auto)]

ghost use Rattle.std.specs.Prelude.{◌≡◌, true, List, ℕ, ◌+◌, ◌≤◌, ◌<◌, length, drop};
ghost use Rattle.std.proofs.lemmas.List.Edits.{sets};
ghost use Rattle.common.specs.Answers.{written_numbers};
ghost use Rattle.page.specs.Page.{accepted, assigned};
ghost use Rattle.page.specs.Inner.{Assigned};
ghost use Rattle.isolate_unassigned.specs.Meaning.{to_isolate, isolated};
ghost use Rattle.isolate_unassigned.specs.Isolate.{places_for_run, isolate_answer, isolate_places};
ghost use Rattle.isolate_unassigned.specs.Inner.{fresh, isolate_step_of, gives_out, after, isolated_from, Nearer, Moves};

use common::Refusal;
use page::{assigned_range, is_accepted, is_assigned};
use ranges::{Range, in_range};
use scalars::{CGJ, are_chars};
use stretch::{either, either_end, is_sought, put_run};
use text_utils::is_private_use_area;

// Puts 34F around unassigned characters.
#[derive(Clone, Copy, Debug, PartialEq, Eq)]
pub struct IsolateUnassigned {
    // 34F was put before the last character, and is owed after it.
    pub need_cgj: bool,
    // The last character is a 34F of the run.
    pub have_cgj: bool,
}

// What a step gives out, and the record after: the character alone, or 34F and the character.
// "The iterator chain with `Rc<RefCell>`: records by value whose step answers an enum."
#[derive(Clone, Copy, Debug, PartialEq, Eq)]
pub enum Isolated {
    One(u32, IsolateUnassigned),
    Two(u32, u32, IsolateUnassigned),
}

// Whether c is unassigned and outside private use, by whether it was found assigned. Total.
#[tactic(auto, unfolding(crate::specs::Meaning::to_isolate))]
fn is_isolated(found: bool, c: u32) -> bool
    ensures { (p : List ℕ) → found ≡ assigned p c → result ≡ to_isolate p c }
{
    !(found | is_private_use_area(c))
}

impl IsolateUnassigned {
    // Nothing is owed, and no 34F is there.
    pub fn new() -> Self
        ensures { result ≡ fresh }
    {
        Self {
            need_cgj: false,
            have_cgj: false,
        }
    }

    // One character, `next` of the Rust with a character, where it is known whether it is to be isolated. Total.
    #[tactic(auto, unfolding(crate::specs::Inner::isolate_step_of))]
    fn step_by(self, unassigned: bool, c: u32) -> Isolated
        ensures { (p : List ℕ) → unassigned ≡ to_isolate p c → result ≡ isolate_step_of p self c }
    {
        let have_cgj = c == CGJ;
        if self.need_cgj & !have_cgj | unassigned & !self.have_cgj {
            Isolated::Two(
                CGJ,
                c,
                Self {
                    need_cgj: unassigned,
                    have_cgj: false,
                },
            )
        } else {
            Isolated::One(
                c,
                Self {
                    need_cgj: false,
                    have_cgj,
                },
            )
        }
    }

    // One character of the run. Inner: asks for an accepted page.
    pub fn step(self, page: &[u32], c: u32) -> Isolated
        requires { accepted page.now ≡ true }
        ensures { result ≡ isolate_step_of page.now self c }
    {
        self.step_by(is_isolated(is_assigned(page, c), c), c)
    }

    // Whether one more 34F ends the run, `next` of the Rust with no character. Total.
    pub fn finish(self) -> bool
        ensures { result ≡ self.need_cgj }
    {
        self.need_cgj
    }
}

// How many places a run asks for. Total: a slice of 32-bit numbers is too short for the sum to wrap.
fn places_for(chars: &[u32]) -> usize
    ensures { result ≡ places_for_run (length chars.now) }
{
    if chars.is_empty() {
        return 0;
    }
    2 * chars.len() + 1
}

// How far the places are written, and the record.
#[derive(Clone, Copy)]
struct Turned {
    written: usize,
    next: IsolateUnassigned,
}

// Stores what a step gives out from place k on. Inner: asks for room.
fn put_step(step: Isolated, out: &mut [u32], k: usize) -> Turned
    requires { k + length (gives_out step) ≤ length out.old }
    ensures written { result.written ≡ k + length (gives_out step) }
    ensures next { result.next ≡ after step }
    ensures places { out.new ≡ sets out.old k (gives_out step) }
{
    match step {
        Isolated::One(c, next) => {
            out[k] = c;
            Turned {
                written: k + 1,
                next,
            }
        }
        Isolated::Two(cgj, c, next) => {
            out[k] = cgj;
            out[k + 1] = c;
            Turned {
                written: k + 2,
                next,
            }
        }
    }
}

// A range of assigned characters to look in beside the base, and whether c was found in one of the two.
#[derive(Clone, Copy)]
struct Near {
    range: Range,
    found: bool,
}

// Looks for c in the base and in this range, and in the page where neither has it. Inner: asks for an accepted page, and for ranges of
// assigned characters.
fn nearer(page: &[u32], base: Range, near: Range, c: u32) -> Near
    requires page { accepted page.now ≡ true }
    requires base { Assigned page.now base }
    requires near { Assigned page.now near }
    ensures { Nearer page.now c result }
{
    if is_sought(either(base, near), c) {
        return Near {
            range: near,
            found: true,
        };
    }
    let range = assigned_range(page, c);
    Near {
        range,
        found: in_range(range, c),
    }
}

// How far a run is taken and the places are written, the record, and the range to look in next.
#[derive(Clone, Copy)]
struct Moved {
    at: usize,
    written: usize,
    next: IsolateUnassigned,
    near: Range,
}

impl IsolateUnassigned {
    // One character or more of the run from place i on, and what is given out for them stored from place k on: a stretch of assigned
    // characters that is copied, where nothing is owed, or one step. Inner: asks for an accepted page, for a character at i, for ranges
    // of assigned characters, and for room for all that is left.
    fn advance(
        self,
        page: &[u32],
        chars: &[u32],
        i: usize,
        base: Range,
        near: Range,
        out: &mut [u32],
        k: usize,
    ) -> Moved
        requires page { accepted page.now ≡ true }
        requires more { i < length chars.now }
        requires base { Assigned page.now base }
        requires near { Assigned page.now near }
        requires room { k + length (isolated_from page.now self (drop i chars.now)) ≤ length out.old }
        ensures { Moves page.now self chars.now i out.old k result out.new }
    {
        let c = chars[i];
        let close = nearer(page, base, near, c);
        let range = close.range;
        let found = close.found;
        if found & !self.need_cgj {
            let end = either_end(chars, i + 1, base, range);
            put_run(&chars[i..end], out, k);
            let last = chars[end - 1];
            let next = IsolateUnassigned {
                need_cgj: false,
                have_cgj: last == CGJ,
            };
            Moved {
                at: end,
                written: k + (end - i),
                next,
                near: range,
            }
        } else {
            let step = self.step_by(is_isolated(found, c), c);
            let turned = put_step(step, out, k);
            let next = turned.next;
            Moved {
                at: i + 1,
                written: turned.written,
                next,
                near: range,
            }
        }
    }
}

// Isolates a run into the first places of out, and answers how many. Inner: asks for an accepted page and for room.
// What is left of the run, from the record r on, goes to the places from k on. The loop stays a `while`: a turn takes as many characters
// as `advance` answers.
pub fn isolate_run(page: &[u32], chars: &[u32], out: &mut [u32]) -> usize
    requires page_value { accepted page.now ≡ true }
    requires chars_in_bounds { length (isolated page.now chars.now) ≤ length out.old }
    ensures value { result ≡ length (isolated page.now chars.now) }
    ensures out_after { out.new ≡ sets out.old 0 (isolated page.now chars.now) }
{
    let base = assigned_range(page, 0xa);
    let mut near = base;
    let mut r = IsolateUnassigned::new();
    let mut k = 0;
    let mut i = 0;
    while i < chars.len() {
        let moved = r.advance(page, chars, i, base, near, out, k);
        i = moved.at;
        k = moved.written;
        r = moved.next;
        near = moved.near;
    }
    if r.finish() {
        out[k] = CGJ;
        return k + 1;
    }
    k
}

// Isolates a run of characters into the first places of out. Total: refuses 2, then 1, then 8, and then leaves every place.
pub fn isolate(page: &[u32], chars: &[u32], out: &mut [u32]) -> Result<usize, Refusal>
    ensures answer { written_numbers result ≡ isolate_answer page.now chars.now out.old }
    ensures places { out.new ≡ isolate_places page.now chars.now out.old }
{
    if !is_accepted(page) {
        return Err(Refusal::WrongPage);
    }
    if !are_chars(chars) {
        return Err(Refusal::NotAChar);
    }
    if places_for(chars) <= out.len() {
        Ok(isolate_run(page, chars, out))
    } else {
        Err(Refusal::NoRoom)
    }
}

// Stretches: runs of characters that come out as they go in, most of any text. The end of one is found by blocks of 16, and all of it is
// copied at once, where a step for each character would cost many times as much. Not in the Rust. All of it is inner.
// No contract says that a stretch is the longest: where a block ends, and which ranges a caller guesses, is a matter of time alone.
//     gaps.rt    ranges of plain characters
//     lib.rt     the end of a stretch, and its copy
#![tactic(auto)]

mod gaps;

ghost use Rattle.std.specs.Prelude.{◌≡◌, true, ◌+◌, ◌≤◌, length};
ghost use Rattle.std.proofs.lemmas.List.Edits.{sets};
ghost use Rattle.stretch.specs.Plain.{ascii_or};
ghost use Rattle.stretch.specs.Stretch.{in_sought, either_of, Each, Stretch};

pub use gaps::{first_gap, next_gap};
use ranges::{Range, in_range, no_range};

// What a stretch is made of: the numbers of two ranges, and those of a third one but 149 and 673.
#[derive(Clone, Copy, Debug, PartialEq, Eq)]
pub struct Sought {
    pub one: Range,
    pub two: Range,
    pub gap: Range,
}

// Tab, newline, 20 to 7E, and a gap.
pub fn ascii_or(gap: Range) -> Sought
    ensures { result ≡ ascii_or gap }
{
    Sought {
        one: Range {
            first: 9,
            last: 0xa,
        },
        two: Range {
            first: 0x20,
            last: 0x7e,
        },
        gap,
    }
}

// One range or another.
pub fn either(one: Range, two: Range) -> Sought
    ensures { result ≡ either_of one two }
{
    Sought {
        one,
        two,
        gap: no_range(),
    }
}

// Whether c, any number, is sought. Total.
#[tactic(auto, unfolding(crate::specs::Stretch::in_gap))]
pub fn is_sought(sought: Sought, c: u32) -> bool
    ensures { result ≡ in_sought sought c }
{
    in_range(sought.one, c)
        | in_range(sought.two, c)
        | in_range(sought.gap, c) & (c != 0x149) & (c != 0x673)
}

// Whether all of a block are sought. The fold has no early exit, so that it can be vectorised.
fn block(block: &[u32], sought: Sought) -> bool
    ensures { result ≡ true → Each sought block.now 0 (length block.now) }
{
    block
        .iter()
        .fold(true, |good, &c| good & is_sought(sought, c))
}

// A place up to which all from `from` on are sought, by blocks. Compiled into each caller: there most of the ranges are numbers, by
// which the tests of a block are unrolled. As a call it would take twice as long.
#[inline(always)]
fn blocks(s: &[u32], from: usize, sought: Sought) -> usize
    requires { from ≤ length s.now }
    ensures { Stretch sought s.now from result }
{
    let mut end = from;
    for part in s[from..].chunks_exact(16) {
        if !block(part, sought) {
            return end;
        }
        end += 16;
    }
    end
}

// The same, one by one, and at most so many.
fn few(s: &[u32], from: usize, most: usize, sought: Sought) -> usize
    requires { from ≤ length s.now }
    ensures { Stretch sought s.now from result }
{
    let next = s[from..].iter().take(most);
    from + next.take_while(|c| is_sought(sought, **c)).count()
}

// The end of a stretch of ASCII and a gap: a few one by one, so that a short stretch costs no block; blocks of what is likeliest, ASCII
// alone; blocks of all that is sought; the rest of a block. Inner: asks for a place of the slice.
pub fn plain_end(s: &[u32], from: usize, gap: Range) -> usize
    requires { from ≤ length s.now }
    ensures { Stretch (ascii_or gap) s.now from result }
{
    let sought = ascii_or(gap);
    let a = few(s, from, 4, sought);
    if a - from < 4 {
        return a;
    }
    let b = blocks(s, a, ascii_or(no_range()));
    let c = blocks(s, b, sought);
    few(s, c, 16, sought)
}

// The end of a stretch of one range or another, of which the first is the likelier, in the same way. A search of its own, since one
// that both callers share would not be compiled into either. Inner: asks for a place of the slice.
pub fn either_end(s: &[u32], from: usize, one: Range, two: Range) -> usize
    requires { from ≤ length s.now }
    ensures { Stretch (either_of one two) s.now from result }
{
    let sought = either(one, two);
    let a = few(s, from, 4, sought);
    if a - from < 4 {
        return a;
    }
    let b = blocks(s, a, either(one, no_range()));
    let c = blocks(s, b, sought);
    few(s, c, 16, sought)
}

// Stores characters from a place on. Inner: asks for room. What is left of them, stored from the place at hand on, leads to the same end.
// One by one: `copy_from_slice` takes a function from outside, which an archive for C that stands on this alone would then need. Of
// stretches of thousands it is no faster.
pub fn put_run(run: &[u32], out: &mut [u32], at: usize)
    requires { at + length run.now ≤ length out.old }
    ensures { out.new ≡ sets out.old at run.now }
{
    for (j, &c) in run.iter().enumerate() {
        out[at + j] = c;
    }
}

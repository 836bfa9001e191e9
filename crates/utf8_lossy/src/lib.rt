// Any bytes as characters, in chunks cut anywhere: U+FFFD for each maximal subpart (the Unicode Standard, section 3.9), as Rust's
// `from_utf8_lossy` and Python's errors='replace' have it. The bytes of a character that a chunk cuts off wait in a record, a value:
// each call takes one and answers the one after it. Every entry is total: a record can hold any bytes, and only characters come out.
#![tactic(auto)]

ghost use Rattle.std.specs.Prelude.{◌≡◌, ◌&&◌, [], ◌∷◌, ◌++◌, ◌+◌, ◌≤◌, ◌<◌, leb, ltb, length};
ghost use Rattle.std.proofs.lemmas.List.Edits.{sets};
ghost use Rattle.utf8_lossy.specs.Machine.{whole_of, next_of, fresh_of, behind, step_of, finish_of};
ghost use Rattle.utf8_lossy.specs.Decode.{pending_of, chars_out, turn_in, outcome, decode_of};

use common::Refusal;
use scalars::{REPL, is_char};

// What the pending bytes and one byte more are: a character, part of one, or no start of any.
#[derive(Clone, Copy)]
enum Kind {
    Whole(u32),
    More,
    Bad,
}

// The characters that are put out.
#[derive(Clone, Copy, Debug, PartialEq, Eq)]
pub enum Out {
    Nothing,
    One(u32),
    Two(u32, u32),
}

// The record: the pending bytes, those of a character that has begun. `Nothing` is the start of a text.
#[derive(Clone, Copy, Debug, PartialEq, Eq)]
pub enum Pending {
    Nothing,
    One(u8),
    Two(u8, u8),
    Three(u8, u8, u8),
}

// What a byte comes to: the record after it, the characters put out, and how many bytes are replaced in them.
#[derive(Clone, Copy, Debug, PartialEq, Eq)]
pub struct Stepped {
    pub next: Pending,
    pub out: Out,
    pub replaced: usize,
}

// How many characters were written, and how many bytes are replaced in them.
#[derive(Clone, Copy, Debug, PartialEq, Eq)]
pub struct Counted {
    pub written: usize,
    pub replaced: usize,
}

// A call's answer, and the record after it.
#[derive(Clone, Copy, Debug, PartialEq, Eq)]
pub struct Decoded {
    pub answer: Result<Counted, Refusal>,
    pub next: Pending,
}

// The value of all bits, if it is a character.
fn whole(c: u32) -> Kind
    ensures { result ≡ whole_of c }
{
    if is_char(c) {
        Kind::Whole(c)
    } else {
        Kind::Bad
    }
}

// 80..BF: what every byte of a character but its first is.
fn is_tail(b: u8) -> bool
    ensures { result ≡ leb 0x80 b && ltb b 0xc0 }
{
    matches!(b, 0x80..=0xbf)
}

// What a byte is where nothing, and where one, two and three bytes are pending.
fn first(b: u8) -> Kind
    ensures { result ≡ next_of [] b }
{
    match b {
        ..=0x7f => Kind::Whole(u32::from(b)),
        0xc2..=0xf4 => Kind::More,
        _ => Kind::Bad,
    }
}

fn second(a: u8, b: u8) -> Kind
    ensures { result ≡ next_of (a ∷ []) b }
{
    if !is_tail(b) {
        return Kind::Bad;
    }
    let tail = u32::from(b) % 64;
    match a {
        ..=0xdf => Kind::Whole(u32::from(a) % 32 * 64 + tail),
        0xe0..=0xef => match u32::from(a) % 16 * 64 + tail {
            0x20..=0x35f | 0x380.. => Kind::More,
            _ => Kind::Bad,
        },
        _ => match u32::from(a) % 8 * 64 + tail {
            0x10..=0x10f => Kind::More,
            _ => Kind::Bad,
        },
    }
}

fn third(a: u8, b: u8, c: u8) -> Kind
    ensures { result ≡ next_of (a ∷ b ∷ []) c }
{
    if !is_tail(c) {
        Kind::Bad
    } else if a < 0xf0 {
        whole(u32::from(a) % 16 * 4096 + u32::from(b) % 64 * 64 + u32::from(c) % 64)
    } else {
        Kind::More
    }
}

fn fourth(a: u8, b: u8, c: u8, d: u8) -> Kind
    ensures { result ≡ next_of (a ∷ b ∷ c ∷ []) d }
{
    if !is_tail(d) {
        return Kind::Bad;
    }
    whole(
        u32::from(a) % 8 * 262144
            + u32::from(b) % 64 * 4096
            + u32::from(c) % 64 * 64
            + u32::from(d) % 64,
    )
}

// The byte where nothing is pending, behind U+FFFD for the n bytes that were. Inner: it asks for three at most.
fn again(b: u8, n: usize) -> Stepped
    requires { n ≤ 3 }
    ensures { turn_in result ≡ behind n (fresh_of (next_of [] b) b) }
{
    match first(b) {
        Kind::Whole(c) => Stepped {
            next: Pending::Nothing,
            out: Out::Two(REPL, c),
            replaced: n,
        },
        Kind::More => Stepped {
            next: Pending::One(b),
            out: Out::One(REPL),
            replaced: n,
        },
        Kind::Bad => Stepped {
            next: Pending::Nothing,
            out: Out::Two(REPL, REPL),
            replaced: n + 1,
        },
    }
}

// Stores the characters of an answer from place k on. Inner: it asks for room.
fn put(o: Out, out: &mut [u32], k: usize) -> usize
    requires { k + length (chars_out o) ≤ length out.old }
    ensures { (result ≡ k + length (chars_out o)) × (out.new ≡ sets out.old k (chars_out o)) }
{
    match o {
        Out::Nothing => k,
        Out::One(c) => {
            out[k] = c;
            k + 1
        }
        Out::Two(c, d) => {
            out[k] = c;
            out[k + 1] = d;
            k + 2
        }
    }
}

impl Pending {
    // How many bytes are pending: so many a finish replaces. Total.
    pub fn len(self) -> usize
        ensures { result ≡ length (pending_of self) }
    {
        match self {
            Pending::Nothing => 0,
            Pending::One(_) => 1,
            Pending::Two(_, _) => 2,
            Pending::Three(_, _, _) => 3,
        }
    }

    // What the pending bytes and the byte are.
    fn kind(self, b: u8) -> Kind
        ensures { result ≡ next_of (pending_of self) b }
    {
        match self {
            Pending::Nothing => first(b),
            Pending::One(x) => second(x, b),
            Pending::Two(x, y) => third(x, y, b),
            Pending::Three(x, y, z) => fourth(x, y, z, b),
        }
    }

    // One byte more. Inner: it asks for a place; a record of three bytes has none.
    fn pushed(self, b: u8) -> Self
        requires { length (pending_of self) < 3 }
        ensures { pending_of result ≡ pending_of self ++ (b ∷ []) }
    {
        match self {
            Pending::Nothing => Pending::One(b),
            Pending::One(x) => Pending::Two(x, b),
            Pending::Two(x, y) => Pending::Three(x, y, b),
            Pending::Three(_, _, _) => unreachable!(),
        }
    }

    // What a byte comes to that does not go on with what is pending. Inner: it asks for such a byte.
    fn broken(self, b: u8) -> Stepped
        requires { next_of (pending_of self) b ≡ Kind.Bad }
        ensures { turn_in result ≡ step_of (pending_of self) b }
    {
        match self.len() {
            0 => Stepped {
                next: Pending::Nothing,
                out: Out::One(REPL),
                replaced: 1,
            },
            n => again(b, n),
        }
    }

    // Takes one byte, and answers what it comes to. Total.
    pub fn step(self, b: u8) -> Stepped
        ensures { turn_in result ≡ step_of (pending_of self) b }
    {
        match self.kind(b) {
            Kind::Whole(c) => Stepped {
                next: Pending::Nothing,
                out: Out::One(c),
                replaced: 0,
            },
            Kind::More => Stepped {
                next: self.pushed(b),
                out: Out::Nothing,
                replaced: 0,
            },
            Kind::Bad => self.broken(b),
        }
    }

    // The end of a text: U+FFFD for what is pending. Total.
    pub fn finish(self) -> Out
        ensures { chars_out result ≡ finish_of (pending_of self) }
    {
        match self {
            Pending::Nothing => Out::Nothing,
            _ => Out::One(REPL),
        }
    }

    // Takes a chunk, and puts its characters into the first places of out. Total: refuses by 8 where out has fewer places than
    // n + 1 for n bytes, an empty chunk needing none, and then leaves record and places.
    pub fn decode(self, bytes: &[u8], out: &mut [u32]) -> Decoded
        ensures { outcome result out.new ≡ decode_of (pending_of self) bytes.now out.old }
    {
        if !bytes.is_empty() && out.len() <= bytes.len() {
            return Decoded {
                answer: Err(Refusal::NoRoom),
                next: self,
            };
        }
        let mut pending = self;
        let mut written = 0;
        let mut replaced = 0;
        for &b in bytes {
            let stepped = pending.step(b);
            written = put(stepped.out, out, written);
            replaced += stepped.replaced;
            pending = stepped.next;
        }
        Decoded {
            answer: Ok(Counted { written, replaced }),
            next: pending,
        }
    }
}

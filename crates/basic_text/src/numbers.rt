// Bytes as 32-bit numbers, four bytes each, the low byte first. Bytes past the last whole four are neither read nor written.
ghost use Rattle.std.specs.Prelude.{◌≡◌, ◌∷◌, [], ◌+◌, ◌*◌, ◌≤◌, length, get_or};
ghost use Rattle.std.proofs.lemmas.List.Edits.{sets};
ghost use Rattle.scalars.specs.Chars.{are_chars};
ghost use Rattle.basic_text.specs.Exports.{numbers_of, bytes_of};

use scalars::is_char;

// The number at place i. Inner: asks that it is there.
pub fn read_number(bytes: &[u8], i: usize) -> u32
    requires { 4 * (i + 1) ≤ length bytes.now }
    ensures { result ≡ get_or (numbers_of bytes.now) i 0 }
{
    let at = 4 * i;
    u32::from_le_bytes([bytes[at], bytes[at + 1], bytes[at + 2], bytes[at + 3]])
}

// Stores a number at place i. Inner: asks for room.
fn write_number(bytes: &mut [u8], i: usize, n: u32)
    requires { 4 * (i + 1) ≤ length bytes.old }
    ensures { bytes.new ≡ sets bytes.old (4 * i) (bytes_of (n ∷ [])) }
{
    let at = 4 * i;
    bytes[at..at + 4].copy_from_slice(&n.to_le_bytes());
}

// Reads all numbers into the first places of out. Inner: asks for room.
#[tactic(auto, using(crate::proofs::Laws::length_numbers))]
pub fn read_numbers(bytes: &[u8], out: &mut [u32])
    requires { length (numbers_of bytes.now) ≤ length out.old }
    ensures { out.new ≡ sets out.old 0 (numbers_of bytes.now) }
{
    for i in 0..bytes.len() / 4 {
        out[i] = read_number(bytes, i);
    }
}

// The same, and answers these places. Inner, as `read_numbers`.
#[tactic(auto, using(crate::proofs::Laws::length_numbers, crate::proofs::Stores::stored_first))]
pub fn read_front<'a>(bytes: &[u8], out: &'a mut [u32]) -> &'a [u32]
    requires { length (numbers_of bytes.now) ≤ length out.old }
    ensures { result.now ≡ numbers_of bytes.now }
{
    read_numbers(bytes, out);
    &out[..bytes.len() / 4]
}

// Stores some numbers from place k on. Inner: asks for room.
#[tactic(auto, using(crate::proofs::Stores::sets_next))]
pub fn write_numbers(bytes: &mut [u8], k: usize, from: &[u32])
    requires { 4 * (k + length from.now) ≤ length bytes.old }
    ensures { bytes.new ≡ sets bytes.old (4 * k) (bytes_of from.now) }
{
    for (i, &n) in from.iter().enumerate() {
        write_number(bytes, k + i, n);
    }
}

// Whether every number is a character. Total. The loop has no early exit, so that it can be vectorised.
#[tactic(auto, using(crate::proofs::Laws::length_numbers))]
pub fn hold_chars(bytes: &[u8]) -> bool
    ensures { result ≡ are_chars (numbers_of bytes.now) }
{
    let mut good = true;
    for i in 0..bytes.len() / 4 {
        good &= is_char(read_number(bytes, i));
    }
    good
}

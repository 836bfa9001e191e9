// A run of characters, read from bytes and written to bytes, piece by piece: each piece, a part of the chunk and none of document 01's
// pieces, is a run of the crate `text_input`.
ghost use Rattle.std.specs.Prelude.{◌≡◌, true, ◌+◌, ◌*◌, ◌≤◌, length, drop};
ghost use Rattle.std.proofs.lemmas.List.Edits.{sets};
ghost use Rattle.page.specs.Page.{accepted};
ghost use Rattle.text_input.specs.Scan.{run_of, skipped};
ghost use Rattle.text_input.specs.Inner.{outs, ran_by};
ghost use Rattle.basic_text.specs.Exports.{numbers_of, bytes_of};

use super::numbers::{read_front, read_number, write_numbers};
use scalars::BOM;
use text_input::{Options, Ran, TextInput};

// The numbers of a piece at most.
const PIECE: usize = 256;

// How many characters of the chunk are dropped: a leading FEFF, where no chunk was accepted before. Total.
pub fn skips(r: TextInput, chunk: &[u8]) -> usize
    ensures { result ≡ skipped r (numbers_of chunk.now) }
{
    if r.at_start && 4 <= chunk.len() && read_number(chunk, 0) == BOM {
        1
    } else {
        0
    }
}

// The characters of a piece, and their output stored from place k on. They are read into numbers, and their output is written to
// places first. Inner: asks for an accepted page and for room in each of the three; 3 × n + 1 places are enough for n characters.
#[tactic(auto, using(text_input::proofs::Room::room, crate::proofs::Stores::stored_first))]
fn piece(
    r: TextInput,
    page: &[u32],
    options: Options,
    bytes: &[u8],
    numbers: &mut [u32],
    places: &mut [u32],
    queue: &mut [u8],
    k: usize,
) -> Ran
    requires page { accepted page.now ≡ true }
    requires numbers { length (numbers_of bytes.now) ≤ length numbers.old }
    requires places { 3 * length (numbers_of bytes.now) + 1 ≤ length places.old }
    requires room { 4 * (k + length (outs page.now options r (numbers_of bytes.now))) ≤ length queue.old }
    ensures ran { result ≡ ran_by k (run_of page.now options r (numbers_of bytes.now)) }
    ensures stored { queue.new ≡ sets queue.old (4 * k) (bytes_of (outs page.now options r (numbers_of bytes.now))) }
{
    let ran = r.run(page, options, read_front(bytes, numbers), places);
    write_numbers(queue, k, &places[..ran.written]);
    Ran {
        written: k + ran.written,
        next: ran.next,
    }
}

// The characters of the chunk from a place on, stored from the first place on. Inner: asks for an accepted page and for room.
#[tactic(auto, using(crate::proofs::Laws::length_numbers))]
pub fn run(
    first: TextInput,
    page: &[u32],
    options: Options,
    chunk: &[u8],
    from: usize,
    queue: &mut [u8],
) -> Ran
    requires page_value { accepted page.now ≡ true }
    requires from_in_bounds { from ≤ length (numbers_of chunk.now) }
    requires chunk_in_bounds { 4 * length (outs page.now options first (drop from (numbers_of chunk.now))) ≤ length queue.old }
    ensures ran { result ≡ ran_by 0 (run_of page.now options first (drop from (numbers_of chunk.now))) }
    ensures places { queue.new ≡ sets queue.old 0 (bytes_of (outs page.now options first (drop from (numbers_of chunk.now)))) }
{
    let mut numbers = [0u32; PIECE];
    let mut places = [0u32; 3 * PIECE + 1];
    let mut ran = Ran {
        written: 0,
        next: first,
    };
    for bytes in chunk[4 * from..].chunks(4 * PIECE) {
        ran = piece(
            ran.next,
            page,
            options,
            bytes,
            &mut numbers,
            &mut places,
            queue,
            ran.written,
        );
    }
    ran
}

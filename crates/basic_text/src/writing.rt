// A write of bytes into a buffer that is lent as bytes: the steps and the end are those of the crate `text_output_write`. The characters of
// one turn are stored as numbers first, since a turn hands out at most 67: 64 held, 34F and two more.
ghost use Rattle.std.specs.Prelude.{◌≡◌, true, [], ◌+◌, ◌≤◌, length, get_or, take};
ghost use Rattle.std.proofs.lemmas.List.Edits.{sets};
ghost use Rattle.scalars.specs.Utf8.{chars_of};
ghost use Rattle.page.specs.Page.{accepted};
ghost use Rattle.isolate_unassigned.specs.Inner.{last_owed};
ghost use Rattle.text_output.specs.Writer.{sound, bytes_outcome};
ghost use Rattle.text_output.specs.Step.{steps_of};
ghost use Rattle.text_output.specs.Write.{run_in, write_of};
ghost use Rattle.text_output_write.specs.Inner.{machine_at, pushed, stored, progress, turn_of, isolator_after};
ghost use Rattle.basic_text.specs.Exports.{numbers_of, bytes_of};
ghost use Rattle.basic_text.specs.Inner.{tail, place_in, behind_of};

use super::numbers::{read_number, write_numbers};
use isolate_unassigned::IsolateUnassigned;
use scalars::{utf8_step, valid_prefix};
use text_output::{Mode, TextOutput, WrittenBytes};
use text_output_write::{
    Place, Stopped, Turned, bytes_refusal, end_write, finish, may_write, place_of, refused_by,
    taking, turn,
};

// Stores some numbers from place k on. Inner: asks for room.
fn store_numbers(queue: &mut [u8], k: usize, from: &[u32])
    requires { k + length from.now ≤ length (numbers_of queue.old) }
    ensures places { numbers_of queue.new ≡ sets (numbers_of queue.old) k from.now }
    ensures tail { tail queue.new ≡ tail queue.old }
{
    write_numbers(queue, k, from);
}

// What some steps stored in few, moved to the queue from place k on. Inner: asks for room.
#[tactic(auto, using(crate::proofs::Laws::length_numbers), unfolding(crate::specs::Inner::at_place))]
fn move_behind(
    pushed: Result<Place, Stopped>,
    k: usize,
    few: &[u32],
    queue: &mut [u8],
) -> Result<Place, Stopped>
    requires few { (place_in pushed).at ≤ length few.now }
    requires room { k + (place_in pushed).at ≤ length (numbers_of queue.old) }
    ensures moved { result ≡ behind_of k pushed }
    ensures places { numbers_of queue.new ≡ sets (numbers_of queue.old) k (take (place_in pushed).at few.now) }
    ensures tail { tail queue.new ≡ tail queue.old }
{
    match pushed {
        Ok(w) => {
            store_numbers(queue, k, &few[..w.at]);
            Ok(Place { at: k + w.at, ..w })
        }
        Err(Stopped { place, stop }) => {
            store_numbers(queue, k, &few[..place.at]);
            Err(Stopped {
                place: Place {
                    at: k + place.at,
                    ..place
                },
                stop,
            })
        }
    }
}

// One character of a write. Inner, as `text_output_write::turn`.
fn turn_bytes(
    page: &[u32],
    mode: Mode,
    w: Place,
    isolator: IsolateUnassigned,
    c: u32,
    escape: &mut [u32; 64],
    queue: &mut [u8],
) -> Turned
    requires page { accepted page.now ≡ true }
    requires sound { sound (machine_at w escape.old) ≡ true }
    requires room { w.at + length (pushed (turn_of mode page.now (machine_at w escape.old) isolator c)) ≤ length (numbers_of queue.old) }
    ensures steps { progress result.pushed escape.new (numbers_of queue.new)
        ≡ stored w.at (numbers_of queue.old) (turn_of mode page.now (machine_at w escape.old) isolator c) }
    ensures isolator { result.isolator ≡ isolator_after mode page.now isolator c }
    ensures tail { tail queue.new ≡ tail queue.old }
{
    let mut few = [0u32; 67];
    let turned = turn(
        page,
        mode,
        Place { at: 0, ..w },
        isolator,
        c,
        escape,
        &mut few,
    );
    Turned {
        pushed: move_behind(turned.pushed, w.at, &few, queue),
        isolator: turned.isolator,
    }
}

// The 34F that the isolator owes at the end. Inner, as `text_output_write::finish`.
fn finish_bytes(
    mode: Mode,
    w: Place,
    isolator: IsolateUnassigned,
    escape: &mut [u32; 64],
    queue: &mut [u8],
) -> Result<Place, Stopped>
    requires sound { sound (machine_at w escape.old) ≡ true }
    requires room { w.at + length (pushed (steps_of mode (machine_at w escape.old) [] (last_owed isolator))) ≤ length (numbers_of queue.old) }
    ensures steps { progress result escape.new (numbers_of queue.new)
        ≡ stored w.at (numbers_of queue.old) (steps_of mode (machine_at w escape.old) [] (last_owed isolator)) }
    ensures tail { tail queue.new ≡ tail queue.old }
{
    let mut few = [0u32; 67];
    let pushed = finish(mode, Place { at: 0, ..w }, isolator, escape, &mut few);
    move_behind(pushed, w.at, &few, queue)
}

// The steps of a write of the longest valid prefix. Inner, as `text_output_write::turn`. What is left of them, from the place at hand on,
// leads to the same end.
fn run_write(
    page: &[u32],
    mode: Mode,
    start: Place,
    bytes: &[u8],
    escape: &mut [u32; 64],
    queue: &mut [u8],
) -> Result<Place, Stopped>
    requires page { accepted page.now ≡ true }
    requires sound { sound (machine_at start escape.old) ≡ true }
    requires room { start.at + length (pushed (run_in mode page.now (machine_at start escape.old) (chars_of bytes.now)))
        ≤ length (numbers_of queue.old) }
    ensures steps { progress result escape.new (numbers_of queue.new)
        ≡ stored start.at (numbers_of queue.old) (run_in mode page.now (machine_at start escape.old) (chars_of bytes.now)) }
    ensures tail { tail queue.new ≡ tail queue.old }
{
    let mut w = start;
    let mut isolator = IsolateUnassigned::new();
    let mut place = 0;
    // No index: the step answers the place after a character.
    while let Some((c, next_place)) = utf8_step(bytes, place) {
        place = next_place;
        let turned = turn_bytes(page, mode, w, isolator, c, escape, queue);
        w = turned.pushed?;
        isolator = turned.isolator;
    }
    finish_bytes(mode, w, isolator, escape, queue)
}

// The first number of the queue, 0 where there is none.
fn first_number(queue: &[u8]) -> u32
    ensures { result ≡ get_or (numbers_of queue.now) 0 0 }
{
    if queue.len() < 4 {
        return 0;
    }
    read_number(queue, 0)
}

// The write of bytes by a page of numbers. Total.
pub fn write(w: TextOutput, page: &[u32], bytes: &[u8], queue: &mut [u8]) -> WrittenBytes
    ensures outcome { bytes_outcome result (numbers_of queue.new) ≡ write_of w page.now bytes.now (numbers_of queue.old) }
    ensures places { queue.new
        ≡ sets queue.old 0 (bytes_of (write_of w page.now bytes.now (numbers_of queue.old)).outcome.places) }
{
    let prefix = valid_prefix(bytes);
    let values = bytes_refusal(bytes.len(), prefix.chars);
    if let Err(why) = may_write(w, page, values, prefix.chars, queue.len() / 4) {
        return taking(prefix.bytes, refused_by(w, why));
    }
    let mode = w.mode;
    let mut escape = w.escape_sequence;
    let pushed = run_write(page, mode, place_of(w), bytes, &mut escape, queue);
    let first = first_number(queue);
    let written = end_write(page, mode, w.expect_starter, pushed, escape, first);
    taking(prefix.bytes, written)
}

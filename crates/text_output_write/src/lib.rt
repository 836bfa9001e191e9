// The writes of the writer: `write_str` and `write` of text_output.rs. What a write is, the crate `text_output` defines, which has the
// record and the other calls too: a wrong flush or close is so refused without the writes being proved again.
//     refusal.rt   what refuses a write before its steps
//     step.rt      one character in one state: `state_machine_char` without its stores
//     store.rt     the stores of a step
//     run.rt       the steps of a write
//     end.rt       how a write ends
// Of these, what is `pub use` is for a write into other places than numbers. Inner, but for `write_refusal` and `refused_write`: the
// refusals by number, whichever number.
#![tactic(auto)]

mod end;
mod refusal;
mod run;
mod step;
mod store;

ghost use Rattle.std.specs.Prelude.{◌≡◌, cond};
ghost use Rattle.text_output.specs.Writer.{wrote_numbers, written_outcome, bytes_outcome};
ghost use Rattle.text_output.specs.Write.{write_str_of, succeeds, write_of};

use end::first_of;
pub use end::{end_write, place_of};
use refusal::chars_refusal;
pub use refusal::{
    RefusedWrite, bytes_refusal, may_write, refused_by, refused_write, write_refusal,
};
pub use run::{Turned, finish, turn};
use run::{run, run_bytes};
use scalars::valid_prefix;
pub use store::{Place, Stop, Stopped};
use text_output::{TextOutput, Written, WrittenBytes};

// Writes characters: they are stored behind the kept ones, and all are handed out. Total: refuses 9, then 2, then 1, then 8, and
// then leaves record and places; then 4 with its reason or 6, or 5 at the end.
pub fn write_str(w: TextOutput, page: &[u32], chars: &[u32], out: &mut [u32]) -> Written
    ensures { written_outcome result out.new ≡ write_str_of w page.now chars.now out.old }
{
    if let Err(why) = may_write(w, page, chars_refusal(chars), chars.len(), out.len()) {
        return refused_by(w, why);
    }
    let mode = w.mode;
    let mut escape = w.escape_sequence;
    let pushed = run(page, mode, place_of(w), chars, &mut escape, out);
    let first = first_of(out);
    end_write(page, mode, w.expect_starter, pushed, escape, first)
}

// Writes the longest valid prefix of bytes, and answers how many it takes. Total: refuses 9, then 2, then 3 where no character
// begins, then 8, and then as `write_str`.
pub fn write(w: TextOutput, page: &[u32], bytes: &[u8], out: &mut [u32]) -> WrittenBytes
    ensures { bytes_outcome result out.new ≡ write_of w page.now bytes.now out.old }
{
    let prefix = valid_prefix(bytes);
    let values = bytes_refusal(bytes.len(), prefix.chars);
    if let Err(why) = may_write(w, page, values, prefix.chars, out.len()) {
        return taking(prefix.bytes, refused_by(w, why));
    }
    let mode = w.mode;
    let mut escape = w.escape_sequence;
    let pushed = run_bytes(page, mode, place_of(w), bytes, &mut escape, out);
    let first = first_of(out);
    let written = end_write(page, mode, w.expect_starter, pushed, escape, first);
    taking(prefix.bytes, written)
}

// A write of bytes that takes so many, where it succeeds. Total.
pub fn taking(n: usize, written: Written) -> WrittenBytes
    ensures used_value { result.used ≡ cond (succeeds (wrote_numbers written.answer)) n 0 }
    ensures answer_value { (result.answer ≡ written.answer) × (result.next ≡ written.next) }
{
    WrittenBytes {
        used: if written.answer.is_ok() { n } else { 0 },
        answer: written.answer,
        next: written.next,
    }
}

// What refuses a write before its steps: record, page and values, by 9, 2, and 1 or 3, and then the places lent, by 8.
ghost use Rattle.std.specs.Prelude.{◌≡◌, [], ltb};
ghost use Rattle.common.specs.Answers.{refusal_number, passed_number};
ghost use Rattle.text_output.specs.Writer.{written_outcome};
ghost use Rattle.text_output.specs.Write.{chars_refusal, bytes_refusal, input_refusal, places_for_write, write_refusal, refused_write};
ghost use Rattle.text_output_write.specs.Inner.{refused_given};

use common::Refusal;
use page::is_accepted;
use scalars::are_chars;
use text_output::{TextOutput, WriteError, Written};

// Whether characters refuse a write.
pub fn chars_refusal(chars: &[u32]) -> Result<(), Refusal>
    ensures { passed_number result ≡ chars_refusal chars.now }
{
    if !are_chars(chars) {
        return Err(Refusal::NotAChar);
    }
    Ok(())
}

// Whether so many bytes, which begin with so many characters, refuse a write.
pub fn bytes_refusal(bytes: usize, chars: usize) -> Result<(), Refusal>
    ensures { passed_number result ≡ bytes_refusal bytes chars }
{
    if (0 < bytes) & (chars == 0) {
        return Err(Refusal::NotUtf8);
    }
    Ok(())
}

// 9, then 2, then what the values say.
fn input_refusal(w: TextOutput, page: &[u32], values: Result<(), Refusal>) -> Result<(), Refusal>
    ensures { passed_number result ≡ input_refusal w page.now (passed_number values) }
{
    if !w.is_sound() {
        return Err(Refusal::UnsoundWriter);
    }
    if !is_accepted(page) {
        return Err(Refusal::WrongPage);
    }
    values
}

// Whether so many places are too few for a write of n characters, kept + held + 3 × n. Total: no sum is made, since a forged
// record's would wrap.
fn is_short(w: TextOutput, n: usize, room: usize) -> bool
    ensures { result ≡ ltb room (places_for_write w n) }
{
    room < w.kept || room - w.kept < w.held || (room - w.kept - w.held) / 3 < n
}

// Whether a write of n characters may go on, and else why not. Total.
#[tactic(auto, using(common::proofs::Answers::refusal_some), unfolding(text_output::specs::Write::write_refusal))]
pub fn may_write(
    w: TextOutput,
    page: &[u32],
    values: Result<(), Refusal>,
    n: usize,
    room: usize,
) -> Result<(), Refusal>
    ensures { passed_number result ≡ write_refusal w page.now (passed_number values) n room }
{
    input_refusal(w, page, values)?;
    if is_short(w, n, room) {
        return Err(Refusal::NoRoom);
    }
    Ok(())
}

// The number by which a write of n characters is refused, 0 where it is not. Total. It stays beside `may_write` since the values may
// refuse by any number, of which a `Refusal` has fifteen.
#[tactic(auto, unfolding(text_output::specs::Write::write_refusal))]
pub fn write_refusal(w: TextOutput, page: &[u32], values: u32, n: usize, room: usize) -> u32
    ensures { result ≡ write_refusal w page.now values n room }
{
    if let Err(why) = input_refusal(w, page, Ok(())) {
        return why.number();
    }
    if values != 0 {
        return values;
    }
    if is_short(w, n, room) {
        return Refusal::NoRoom.number();
    }
    0
}

// What a write refused by a number comes to. A `Written` says why by a `Refusal`, and so can't list every number.
#[derive(Clone, Copy, Debug, PartialEq, Eq)]
pub struct RefusedWrite {
    pub number: u32,
    // Whether the caller is told to abandon.
    pub abandon: bool,
    pub next: TextOutput,
}

// A write refused by this number. Total.
#[tactic(auto, unfolding(text_output::specs::Close::abandon_of))]
pub fn refused_write(w: TextOutput, n: u32) -> RefusedWrite
    ensures { refused_given result ≡ refused_write n w }
{
    let abandon = n == Refusal::NotUtf8.number();
    RefusedWrite {
        number: n,
        abandon,
        next: if abandon { w.abandon() } else { w },
    }
}

// A write refused for this. Total.
pub fn refused_by(w: TextOutput, why: Refusal) -> Written
    ensures { (written_outcome result []).given ≡ refused_write (refusal_number why) w }
{
    let refused = refused_write(w, why.number());
    Written {
        answer: Err(if refused.abandon {
            WriteError::Abandon(why)
        } else {
            WriteError::Refused(why)
        }),
        next: refused.next,
    }
}

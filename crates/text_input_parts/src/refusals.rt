// The refusals of a scan.
ghost use Rattle.std.specs.Prelude.{◌≡◌, ◌≤◌};
ghost use Rattle.common.specs.Answers.{passed_number, room_refusal};
ghost use Rattle.text_input_parts.specs.Refusals.{max_count, places_for_chunk, chunk_refusal, refusal_of};

use common::Refusal;

// The most characters that a record's count holds.
pub const MAX_COUNT: usize = 4294967295;

// Whether a chunk of n characters is refused whatever the places, and why: by the record's count, whether the page is accepted, and
// whether every value is a character. Total.
#[tactic(auto, unfolding(crate::specs::Refusals::chunk_refusal))]
pub fn chunk_refusal(count: u32, page: bool, chars: bool, n: usize) -> Result<(), Refusal>
    ensures { passed_number result ≡ chunk_refusal count page chars n }
{
    if !page {
        return Err(Refusal::WrongPage);
    }
    if !chars {
        return Err(Refusal::NotAChar);
    }
    if MAX_COUNT - (count as usize) < n {
        return Err(Refusal::CountLimit);
    }
    Ok(())
}

// Whether a call that needs so many places is refused. Total.
pub fn room_refusal(needed: usize, room: usize) -> Result<(), Refusal>
    ensures { passed_number result ≡ room_refusal needed room }
{
    if room < needed {
        return Err(Refusal::NoRoom);
    }
    Ok(())
}

// How many places a chunk of n characters needs. Inner: asks for a chunk that the count can hold, so that the sum cannot wrap.
fn places_for(n: usize) -> usize
    requires { n ≤ max_count }
    ensures { result ≡ places_for_chunk n }
{
    if n == 0 {
        return 0;
    }
    3 * n + 1
}

// Whether a scan of n characters is refused, and why: first whatever the places, then by these. Total.
pub fn refusal(count: u32, page: bool, chars: bool, n: usize, room: usize) -> Result<(), Refusal>
    ensures { passed_number result ≡ refusal_of count page chars n (places_for_chunk n) room }
{
    chunk_refusal(count, page, chars, n)?;
    room_refusal(places_for(n), room)
}

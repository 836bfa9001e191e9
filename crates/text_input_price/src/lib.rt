// Price the chunk, then take it: `ask` tells how many places a chunk fills from a scanner's record and writes nowhere, and `commit` takes
// the chunk into that many places or more. The plain scan of `text_input` asks for 3 × n + 1 beforehand. Not in the Rust, whose queue
// grows. Asking goes over the chunk as a scan does, by the same loop, which then counts and does not store.
#![tactic(auto)]

ghost use Rattle.std.specs.Prelude.{◌≡◌};
ghost use Rattle.common.specs.Answers.{written_numbers};
ghost use Rattle.text_input.specs.Scan.{outcome};
ghost use Rattle.text_input_price.specs.Price.{ask_of, commit_of};

use common::Refusal;
use page::is_accepted;
use scalars::are_chars;
use text_input::{Options, Scanned, TextInput};
use text_input_parts::refusals::chunk_refusal;

// How many places a chunk fills from this record. Total: refuses 2, 1, 10, in this order. The record stays the caller's.
pub fn ask(r: TextInput, page: &[u32], options: Options, chunk: &[u32]) -> Result<usize, Refusal>
    ensures { written_numbers result ≡ ask_of r page.now options chunk.now }
{
    chunk_refusal(r.count, is_accepted(page), are_chars(chunk), chunk.len())?;
    let from = r.skips(chunk);
    let opened = r.open(chunk.len() as u32);
    Ok(opened.run_places(page, options, &chunk[from..chunk.len()]))
}

// Takes a chunk as a scan does, but needs no more places than it fills; those past them stay. Total: refuses 2, 1, 10, and 8 for fewer
// places than it fills, in this order, and then leaves record and places. It asks by itself: no call before it is needed.
pub fn commit(
    r: TextInput,
    page: &[u32],
    options: Options,
    chunk: &[u32],
    queue: &mut [u32],
) -> Scanned
    ensures { outcome result queue.new ≡ commit_of r page.now options chunk.now queue.old }
{
    match ask(r, page, options, chunk) {
        Err(why) => Scanned {
            answer: Err(why),
            next: r,
        },
        Ok(needed) => {
            if queue.len() < needed {
                return Scanned {
                    answer: Err(Refusal::NoRoom),
                    next: r,
                };
            }
            let from = r.skips(chunk);
            let opened = r.open(chunk.len() as u32);
            let ran = opened.run(page, options, &chunk[from..chunk.len()], queue);
            Scanned {
                answer: Ok(ran.written),
                next: ran.next,
            }
        }
    }
}

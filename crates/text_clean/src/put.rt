// What a step or a finish appends, encoded into the places from a place on. Each answers the place after what it stored. All of it is
// inner: it asks for characters and for room.
ghost use Rattle.std.specs.Prelude.{◌≡◌, true, ◌+◌, ◌≤◌, length};
ghost use Rattle.std.proofs.lemmas.List.Edits.{sets};
ghost use Rattle.scalars.specs.Chars.{are_chars};
ghost use Rattle.scalars.specs.Utf8.{encode_all};
ghost use Rattle.replace.specs.Replace.{chars};
ghost use Rattle.text_input_parts.specs.Appended.{lead_chars, image_chars};

use replace::Replaced;
use scalars::write_utf8;

pub fn put_lead(lead: Option<u32>, out: &mut [u8], at: usize) -> usize
    requires lead_value { are_chars (lead_chars lead) ≡ true }
    requires lead_in_bounds { at + length (encode_all (lead_chars lead)) ≤ length out.old }
    ensures value { result ≡ at + length (encode_all (lead_chars lead)) }
    ensures out_after { out.new ≡ sets out.old at (encode_all (lead_chars lead)) }
{
    match lead {
        None => at,
        Some(a) => write_utf8(a, out, at),
    }
}

#[tactic(auto, using(common::proofs::Lists::sets_append))]
fn put_replaced(image: Replaced, out: &mut [u8], at: usize) -> usize
    requires image_value { are_chars (chars image) ≡ true }
    requires image_in_bounds { at + length (encode_all (chars image)) ≤ length out.old }
    ensures value { result ≡ at + length (encode_all (chars image)) }
    ensures out_after { out.new ≡ sets out.old at (encode_all (chars image)) }
{
    match image {
        Replaced::One(a) => write_utf8(a, out, at),
        Replaced::Two(a, b) => {
            let second = write_utf8(a, out, at);
            write_utf8(b, out, second)
        }
        Replaced::Three(a, b, c) => {
            let second = write_utf8(a, out, at);
            let third = write_utf8(b, out, second);
            write_utf8(c, out, third)
        }
    }
}

pub fn put_image(image: Option<Replaced>, out: &mut [u8], at: usize) -> usize
    requires image_value { are_chars (image_chars image) ≡ true }
    requires image_in_bounds { at + length (encode_all (image_chars image)) ≤ length out.old }
    ensures value { result ≡ at + length (encode_all (image_chars image)) }
    ensures out_after { out.new ≡ sets out.old at (encode_all (image_chars image)) }
{
    match image {
        None => at,
        Some(r) => put_replaced(r, out, at),
    }
}

// What a step or a finish appends: a lead, an image and marks, and their stores into the lent places from a place on. A store is inner:
// it asks for room, and answers the place after what it stored. A lead is what comes before an image, if anything does: a character that
// was pending, or the 34F that guards the image's first character. An image is what the character itself gives, if it gives anything. The stores of a step can be counted alone: for each variant the test
// whether to store comes last, so that a step's way to its variant goes on without a test of it.
ghost use Rattle.std.specs.Prelude.{◌≡◌, true, ◌++◌, ◌+◌, ◌≤◌, length};
ghost use Rattle.std.proofs.lemmas.List.Edits.{sets};
ghost use Rattle.page.specs.Page.{accepted};
ghost use Rattle.replace.specs.Replace.{chars};
ghost use Rattle.text_input_parts.specs.Appended.{lead_chars, image_chars, first_char, guard_of, last_of, end_mark_of, newline_of, stored_if, limit_of};

use replace::Replaced;
use scalars::CGJ;
use text_utils::{is_basic_text_end, is_basic_text_start};

fn first_char(image: Replaced) -> u32
    ensures { result ≡ first_char image }
{
    match image {
        Replaced::One(a) => a,
        Replaced::Two(a, _) => a,
        Replaced::Three(a, _, _) => a,
    }
}

// The lead, or 34F where a start is expected and the image begins with none. Inner: asks for an accepted page.
pub fn guard(page: &[u32], lead: Option<u32>, expect: bool, image: Replaced) -> Option<u32>
    requires { accepted page.now ≡ true }
    ensures { result ≡ guard_of page.now lead expect image }
{
    if expect {
        if is_basic_text_start(page, first_char(image)) {
            lead
        } else {
            Some(CGJ)
        }
    } else {
        lead
    }
}

// The last character appended, after a lead.
pub fn last_lead(last: u32, lead: Option<u32>) -> u32
    ensures { result ≡ last_of last (lead_chars lead) }
{
    match lead {
        None => last,
        Some(a) => a,
    }
}

fn last_replaced(image: Replaced) -> u32
    ensures { result ≡ last_of 0 (chars image) }
{
    match image {
        Replaced::One(a) => a,
        Replaced::Two(_, b) => b,
        Replaced::Three(_, _, c) => c,
    }
}

// The last character appended, after an image.
pub fn last_image(last: u32, image: Option<Replaced>) -> u32
    ensures { result ≡ last_of last (image_chars image) }
{
    match image {
        None => last,
        Some(r) => last_replaced(r),
    }
}

// 34F after a last character that is no end.
pub fn end_mark(last: u32) -> Option<u32>
    ensures { result ≡ end_mark_of last }
{
    if is_basic_text_end(last) {
        None
    } else {
        Some(CGJ)
    }
}

// 0A where it is owed.
pub fn owed_newline(owed: bool) -> Option<u32>
    ensures { result ≡ newline_of owed }
{
    if owed { Some(0xa) } else { None }
}

fn put_lead(queue: &mut [u32], at: usize, lead: Option<u32>) -> usize
    requires { at + length (lead_chars lead) ≤ length queue.old }
    ensures value { result ≡ at + length (lead_chars lead) }
    ensures queue_after { queue.new ≡ sets queue.old at (lead_chars lead) }
{
    match lead {
        None => at,
        Some(a) => {
            queue[at] = a;
            at + 1
        }
    }
}

fn put_replaced(queue: &mut [u32], at: usize, image: Replaced) -> usize
    requires { at + length (chars image) ≤ length queue.old }
    ensures value { result ≡ at + length (chars image) }
    ensures queue_after { queue.new ≡ sets queue.old at (chars image) }
{
    match image {
        Replaced::One(a) => {
            queue[at] = a;
            at + 1
        }
        Replaced::Two(a, b) => {
            queue[at] = a;
            queue[at + 1] = b;
            at + 2
        }
        Replaced::Three(a, b, c) => {
            queue[at] = a;
            queue[at + 1] = b;
            queue[at + 2] = c;
            at + 3
        }
    }
}

fn replaced_places(image: Replaced) -> usize
    ensures { result ≡ length (chars image) }
{
    match image {
        Replaced::One(_) => 1,
        Replaced::Two(_, _) => 2,
        Replaced::Three(_, _, _) => 3,
    }
}

fn put_lead_if(stores: bool, queue: &mut [u32], at: usize, lead: Option<u32>) -> usize
    requires { at + length (lead_chars lead) ≤ limit_of stores queue.old }
    ensures value { result ≡ at + length (lead_chars lead) }
    ensures queue_after { queue.new ≡ stored_if stores queue.old at (lead_chars lead) }
{
    match lead {
        None => at,
        Some(a) => {
            if stores {
                queue[at] = a;
                return at + 1;
            }
            at + 1
        }
    }
}

fn put_image_if(stores: bool, queue: &mut [u32], at: usize, image: Option<Replaced>) -> usize
    requires { at + length (image_chars image) ≤ limit_of stores queue.old }
    ensures value { result ≡ at + length (image_chars image) }
    ensures queue_after { queue.new ≡ stored_if stores queue.old at (image_chars image) }
{
    match image {
        None => at,
        Some(r) => {
            if stores {
                return put_replaced(queue, at, r);
            }
            at + replaced_places(r)
        }
    }
}

// A lead and an image, one after the other, from a place on, stored or counted alone. Inner: asks for room.
pub fn put_if(
    stores: bool,
    queue: &mut [u32],
    at: usize,
    lead: Option<u32>,
    image: Option<Replaced>,
) -> usize
    requires { at + length (lead_chars lead ++ image_chars image) ≤ limit_of stores queue.old }
    ensures value { result ≡ at + length (lead_chars lead ++ image_chars image) }
    ensures queue_after { queue.new ≡ stored_if stores queue.old at (lead_chars lead ++ image_chars image) }
{
    let after = put_lead_if(stores, queue, at, lead);
    put_image_if(stores, queue, after, image)
}

// Three leads, one after the other, from the first place on. Inner: asks for room.
pub fn put_three(queue: &mut [u32], a: Option<u32>, b: Option<u32>, c: Option<u32>) -> usize
    requires { length (lead_chars a ++ (lead_chars b ++ lead_chars c)) ≤ length queue.old }
    ensures value { result ≡ length (lead_chars a ++ (lead_chars b ++ lead_chars c)) }
    ensures queue_after { queue.new ≡ sets queue.old 0 (lead_chars a ++ (lead_chars b ++ lead_chars c)) }
{
    let second = put_lead(queue, 0, a);
    let third = put_lead(queue, second, b);
    put_lead(queue, third, c)
}

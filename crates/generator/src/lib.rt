// A generator of awkward text that is the same on every machine: from a seed, which is its first state, it fills lent places with
// characters of a list of 32, nearly each of which takes another way through the scanner. Document 02, A.6. The Rust has no such thing:
// the comparison's oracle is plain Rust arithmetic.
#![tactic(auto)]

ghost use Rattle.std.specs.Prelude.{◌≡◌, ◌*◌, ◌%◌, ◌^◌};
ghost use Rattle.generator.specs.Generator.{next_of, back_of, fill_places, fill_state};

// A step multiplies by the first and adds the second. The third undoes the first: their product is 1 modulo 2^32.
const FACTOR: u32 = 1664525;

const ADDEND: u32 = 1013904223;

const INVERSE: u32 = 4276115653;

// The characters, of which a step picks one.
const LISTED: [u32; 32] = [
    0x61, 0x0A, 0x0D, 0x0C, 0x1B, 0x5B, 0x5D, 0x07, 0x18, 0x31, 0x6D, 0x48, 0x20, 0xE9, 0x301,
    0x200D, 0xFB03, 0x2028, 0x85, 0xFEFF, 0x2126, 0x378, 0x34F, 0x600, 0x903, 0x1F3FB, 0x10FFFF,
    0x7F, 0x40, 0x3F, 0x7E, 0x9,
];

// The product's low 32 bits. "A wrapping 32-bit multiply helper with the supplied wrapping add"
fn wrapping_mul(a: u32, b: u32) -> u32
    ensures { result ≡ (a * b) % 2 ^ 32 }
{
    a.wrapping_mul(b)
}

// The state after a step. Total.
pub fn next(state: u32) -> u32
    ensures { result ≡ next_of state }
{
    wrapping_mul(FACTOR, state).wrapping_add(ADDEND)
}

// The state before: a step from it leads to this one, and from no other. "its inverse gives the backward step" Total.
pub fn back(state: u32) -> u32
    ensures { result ≡ back_of state }
{
    wrapping_mul(INVERSE, state.wrapping_sub(ADDEND))
}

// Fills every place, a step for each, and hands back the state after the last. A part that is filled from there goes on as the whole would.
// "A constant array of 32 characters indexed by the generator state's top five bits.": the array is copied once, before the loop, since
// each use of a constant array makes it anew. Total: no slice is refused, and an empty one hands back the state as it came.
pub fn fill(state: u32, out: &mut [u32]) -> u32
    ensures state { result ≡ fill_state state out.old }
    ensures places { out.new ≡ fill_places state out.old }
{
    let listed = LISTED;
    let mut at = state;
    for place in out.iter_mut() {
        at = next(at);
        *place = listed[(at >> 27) as usize];
    }
    at
}

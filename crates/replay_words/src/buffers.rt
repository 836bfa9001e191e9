// The memory that an operation is lent, which takes none of its own.
use crate::{NUMBERS, PLACES};

#[derive(Drop)]
pub struct Buffers<'a> {
    // For the numbers of a line.
    pub numbers: &'a mut [u32; NUMBERS],
    // For the places that are lent to a call, or for a copy of them.
    pub places: &'a mut [u32; PLACES],
    // For bytes that are lent to a call, or those that a line's numbers make.
    pub bytes: &'a mut [u8; PLACES],
}

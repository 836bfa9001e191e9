// The places that are lent to a call. A blank place holds EEEEEEEE before it, and a blank byte EE, so that one that the call wrote is
// seen.
ghost use Rattle.std.specs.Prelude.{◌≡◌, ◌≤◌, IfOk, drop, length, take};
ghost use Rattle.replay_words.specs.Blank.{are_blank};

use crate::PLACES;
use crate::listed::{List, Pairs};
use crate::why::Why;
use std::fmt;
use std::fmt::Display;

// What a place holds.
pub trait Place: Copy + Eq {
    ghost BLANK: { Self };

    const BLANK: Self;

    // Places as an answer lists them.
    fn list<W: fmt::Write>(places: &[Self], f: &mut fmt::Formatter<W>) -> fmt::Result;
}

impl Place for u32 {
    ghost BLANK = { 0xeeeeeeee };

    const BLANK: u32 = 0xeeee_eeee;

    fn list<W: fmt::Write>(places: &[u32], f: &mut fmt::Formatter<W>) -> fmt::Result {
        List(places).fmt(f)
    }
}

impl Place for u8 {
    ghost BLANK = { 0xee };

    const BLANK: u8 = 0xee;

    fn list<W: fmt::Write>(places: &[u8], f: &mut fmt::Formatter<W>) -> fmt::Result {
        Pairs(places).fmt(f)
    }
}

// How many places a call is lent.
pub fn room(n: u32) -> Result<usize, Why>
    ensures value { IfOk result (λ room. room ≡ n) }
    ensures limit { IfOk result (λ room. room ≤ 16384) }
{
    let room = n as usize;
    if PLACES < room {
        return Err(Why::Room);
    }
    Ok(room)
}

// The first n of some places, which are then blank.
pub fn blank<T: Place>(places: &mut [T], n: u32) -> Result<&mut [T], Why>
    ensures { IfOk result (λ blank. length blank.now ≡ n) }
{
    let blank = places.get_mut(..room(n)?).ok_or(Why::Room)?;
    blank.fill_with(|| T::BLANK);
    Ok(blank)
}

// Whether every place from k on is blank.
pub fn is_blank<T: Place>(places: &[T], k: usize) -> bool
    ensures { result ≡ are_blank T.eq T.BLANK (drop k places.now) }
{
    rest(places, k).iter().all(|place| *place == T::BLANK)
}

// The first n of some places, or all where they are fewer.
pub fn front<T>(places: &[T], n: usize) -> &[T]
    ensures { result.now ≡ take n places.now }
{
    places.get(..n).unwrap_or(places)
}

// Those from the n-th on, counted from 0.
pub fn rest<T>(places: &[T], n: usize) -> &[T]
    ensures { result.now ≡ drop n places.now }
{
    places.get(n..).unwrap_or(&[])
}

// Gaps: ranges in which every character is plain, but 149 and 673. With these two left out Latin to Bengali is one gap, where it would
// be three, and Czech, Polish or Persian text would change between them within words.
ghost use Rattle.stretch.specs.Plain.{Gap};

use ranges::Range;

// The gap to begin with: Latin to Bengali.
pub fn first_gap() -> Range
    ensures { Gap result }
{
    Range {
        first: 0xa0,
        last: 0x9e3,
    }
}

// A gap: the one that has c, where one has.
fn gap_of(c: u32) -> Range
    ensures { Gap result }
{
    match c {
        0x9e6..=0xa63 => Range {
            first: 0x9e6,
            last: 0xa63,
        },
        0xa66..=0xae3 => Range {
            first: 0xa66,
            last: 0xae3,
        },
        0xae6..=0xb63 => Range {
            first: 0xae6,
            last: 0xb63,
        },
        0xb66..=0xbe3 => Range {
            first: 0xb66,
            last: 0xbe3,
        },
        0xbe6..=0xc63 => Range {
            first: 0xbe6,
            last: 0xc63,
        },
        0xc66..=0xce3 => Range {
            first: 0xc66,
            last: 0xce3,
        },
        0xce6..=0xd63 => Range {
            first: 0xce6,
            last: 0xd63,
        },
        0xd66..=0xf76 => Range {
            first: 0xd66,
            last: 0xf76,
        },
        0xf7a..=0x17a2 => Range {
            first: 0xf7a,
            last: 0x17a2,
        },
        0x17a5..=0x17b3 => Range {
            first: 0x17a5,
            last: 0x17b3,
        },
        0x17b6..=0x17d7 => Range {
            first: 0x17b6,
            last: 0x17d7,
        },
        0x17d9..=0x2027 => Range {
            first: 0x17d9,
            last: 0x2027,
        },
        0x202f..=0x2065 => Range {
            first: 0x202f,
            last: 0x2065,
        },
        0x2074..=0x2125 => Range {
            first: 0x2074,
            last: 0x2125,
        },
        0x212c..=0x2328 => Range {
            first: 0x212c,
            last: 0x2328,
        },
        0x232b..=0x2df4 => Range {
            first: 0x232b,
            last: 0x2df4,
        },
        0x2df6..=0xf8ff => Range {
            first: 0x2df6,
            last: 0xf8ff,
        },
        0xfb07..=0xfdcf => Range {
            first: 0xfb07,
            last: 0xfdcf,
        },
        0xfdf0..=0xfefe => Range {
            first: 0xfdf0,
            last: 0xfefe,
        },
        0xff00..=0xfff8 => Range {
            first: 0xff00,
            last: 0xfff8,
        },
        0x10000..=0x111c3 => Range {
            first: 0x10000,
            last: 0x111c3,
        },
        0x111c5..=0x1d454 => Range {
            first: 0x111c5,
            last: 0x1d454,
        },
        0x1d552..=0x1fffd => Range {
            first: 0x1d552,
            last: 0x1fffd,
        },
        0x20000..=0x2f7ff => Range {
            first: 0x20000,
            last: 0x2f7ff,
        },
        _ => first_gap(),
    }
}

// The gap to look in after a step over c: the one that has c, the first where none has; and this one below A0 and past 2F7FF, where
// no gap is. Inner: asks for a gap.
pub fn next_gap(gap: Range, c: u32) -> Range
    requires { Gap gap }
    ensures { Gap result }
{
    if (c < 0xa0) | (0x2f7ff < c) {
        return gap;
    }
    gap_of(c)
}

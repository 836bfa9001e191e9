// Counts over bytes. Two go over every byte of a file, as sums: the compiler vectorises these, and not a `filter` with a `count`, which
// takes twice as long.
ghost use Rattle.std.specs.Prelude.{◌≡◌};
ghost use Rattle.command_bytes.specs.Counts.{newlines as newlinesOf, starts as startsOf, since_newline};

// How many bytes are 0A.
pub fn newlines(bytes: &[u8]) -> usize
    ensures { result ≡ newlinesOf bytes.now }
{
    bytes.iter().map(|&b| usize::from(b == b'\n')).sum()
}

// How many bytes are no continuation bytes: the characters of valid UTF-8.
pub fn starts(bytes: &[u8]) -> usize
    ensures { result ≡ startsOf bytes.now }
{
    bytes
        .iter()
        .map(|&b| usize::from((b < 0x80) | (0xbf < b)))
        .sum()
}

// How many bytes stand behind the last 0A; all, where there is none.
pub fn since_newline(bytes: &[u8]) -> usize
    ensures { result ≡ since_newline 0 bytes.now }
{
    bytes.iter().rev().take_while(|&&b| b != b'\n').count()
}

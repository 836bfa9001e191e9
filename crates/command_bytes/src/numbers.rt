// Hexadecimal numbers in a text, with blanks between them. A word `P` may stand before them.
ghost use Rattle.std.specs.Prelude.{◌<◌, ◌≤◌, ◌≡◌, length, SomeIff};
ghost use Rattle.command_bytes.specs.Digits.{digit_of};
ghost use Rattle.command_bytes.specs.Words.{is_blank, begin_of, read_in, numbers_of};

// Why a text is not taken as numbers.
#[derive(Clone, Copy, Debug, PartialEq, Eq, Hash)]
pub enum ParseError {
    // A word is no hexadecimal number of 32 bits.
    NoNumber,
    // There are more numbers than places.
    Many,
}

fn is_blank(b: u8) -> bool
    ensures { result ≡ is_blank b }
{
    matches!(b, b' ' | b'\n' | b'\t' | b'\r')
}

// "Characters are hexadecimal": the value of a digit.
#[tactic(auto, using(std::proofs::lemmas::Bool::Decides::nat_tests), unfolding(crate::specs::Digits::digit_of))]
fn digit(b: u8) -> Option<u32>
    ensures { SomeIff result (digit_of b < 16) (digit_of b) }
{
    char::from(b).to_digit(16)
}

// Where the numbers begin: behind the word `P`.
#[tactic(auto, using(std::proofs::lemmas::Bool::Decides::nat_tests), unfolding(crate::specs::Words::begin_of))]
fn begin(text: &[u8]) -> usize
    ensures low { result ≤ length text.now }
    ensures begin { result ≡ begin_of text.now }
{
    match text {
        [b'P', b, ..] if is_blank(*b) => 1,
        _ => 0,
    }
}

// Stores the numbers of a text, and answers how many it has. A word's number is stored anew with each of its digits.
#[tactic(auto, using(crate::proofs::Words::steps), unfolding(crate::specs::Words::numbers_of))]
pub fn numbers(text: &[u8], out: &mut [u32]) -> Result<usize, ParseError>
    ensures { read_in result out.new ≡ numbers_of text.now out.old }
{
    let mut n = 0;
    // The place and the value of the word that goes on.
    let mut word = None;
    for &b in &text[begin(text)..] {
        if is_blank(b) {
            word = None;
            continue;
        }
        let digit = digit(b).ok_or(ParseError::NoNumber)?;
        let (at, before) = word.unwrap_or((n, 0));
        if out.len() <= at {
            return Err(ParseError::Many);
        }
        if before > 0x0fff_ffff {
            return Err(ParseError::NoNumber);
        }
        let value = before * 16 + digit;
        out[at] = value;
        word = Some((at, value));
        n = at + 1;
    }
    Ok(n)
}

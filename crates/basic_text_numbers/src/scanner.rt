// The scanner's states by number, in both directions.
ghost use Rattle.std.specs.Prelude.{◌≡◌};
ghost use Rattle.basic_text_numbers.specs.Numbers.{state_of, state_number};

use super::flag_number;
use text_input::State;

pub fn state_of(n: u32) -> State
    ensures { result ≡ state_of n }
{
    match n {
        1 => State::Ground(true),
        2 => State::Cr,
        3 => State::Ff,
        4 => State::Esc,
        5 => State::CsiStart,
        6 => State::Csi,
        7 => State::Osc,
        8 => State::Linux,
        _ => State::Ground(false),
    }
}

pub fn state_number(state: State) -> u32
    ensures { result ≡ state_number state }
{
    match state {
        State::Ground(line) => flag_number(line),
        State::Cr => 2,
        State::Ff => 3,
        State::Esc => 4,
        State::CsiStart => 5,
        State::Csi => 6,
        State::Osc => 7,
        State::Linux => 8,
    }
}

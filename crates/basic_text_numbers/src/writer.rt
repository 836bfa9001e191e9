// The writer's modes and states by number, in both directions.
ghost use Rattle.std.specs.Prelude.{◌≡◌};
ghost use Rattle.basic_text_numbers.specs.Numbers.{mode_of, mode_number, writer_state_of, writer_state_number};

use text_output::{Ground, Mode, State};

pub fn mode_of(n: u32) -> Mode
    ensures { result ≡ mode_of n }
{
    match n {
        1 => Mode::Crlf,
        2 => Mode::Color,
        _ => Mode::Plain,
    }
}

pub fn mode_number(mode: Mode) -> u32
    ensures { result ≡ mode_number mode }
{
    match mode {
        Mode::Plain => 0,
        Mode::Crlf => 1,
        Mode::Color => 2,
    }
}

pub fn writer_state_of(n: u32) -> State
    ensures { result ≡ writer_state_of n }
{
    match n {
        1 => State::Ground(Ground::ZwjOrPrepend),
        2 => State::Ground(Ground::Other),
        3 => State::Esc,
        4 => State::Csi,
        _ => State::Ground(Ground::Newline),
    }
}

pub fn writer_state_number(state: State) -> u32
    ensures { result ≡ writer_state_number state }
{
    match state {
        State::Ground(Ground::Newline) => 0,
        State::Ground(Ground::ZwjOrPrepend) => 1,
        State::Ground(Ground::Other) => 2,
        State::Esc => 3,
        State::Csi => 4,
    }
}

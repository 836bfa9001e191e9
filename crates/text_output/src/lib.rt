// The writer: ports text_output.rs, but for the code of the two writes, which is the crate `text_output_write`; what these do is defined
// here, in specs/Write.antt.
// The record is a value, and the characters that it hands out stand in a lent slice: those kept since the last success in the first
// places, and behind them those of the write. The stream that the Rust writer holds is the caller's: a success says how many
// characters are handed out, and a refusal whether the caller is to abandon the stream.
#![tactic(auto)]

ghost use Rattle.std.specs.Prelude.{◌≡◌, [], ◌∷◌};
ghost use Rattle.common.specs.Answers.{refusal_number};
ghost use Rattle.text_output.specs.declared.Mode.TheVariants.{Plain, Crlf, Color};
ghost use Rattle.text_output.specs.declared.State.TheVariants.{Ground as Grounded};
ghost use Rattle.text_output.specs.Writer.{machine_of, fresh, byte_order_mark, held_in, sound, answered_given, abandoned_by};
ghost use Rattle.text_output.specs.Close.{expecting, flush_in, flush_of, close_in, close_of, abandon_of};

use check_char::BasicTextError;
use common::Refusal;
use scalars::BOM;

// What stands last outside an escape.
#[derive(Clone, Copy, Debug, PartialEq, Eq)]
pub enum Ground {
    // A newline, or nothing yet.
    Newline,
    // A character that is no end, as ZWJ or Prepend.
    ZwjOrPrepend,
    // Any other.
    Other,
}

// Control-code and escape-sequence state machine.
#[derive(Clone, Copy, Debug, PartialEq, Eq)]
pub enum State {
    // Outside an escape.
    Ground(Ground),
    // After ESC.
    Esc,
    // In a sequence begun by ESC `[`.
    Csi,
}

// What a step of a write asks for: `state_machine_char` of the Rust without its stores.
#[derive(Clone, Copy, Debug, PartialEq, Eq)]
pub enum Step {
    // The character goes out, and this stands last.
    Out(Ground),
    // It is held, in this state.
    Hold(State),
    // It ends the escape: the held characters go out, and it.
    Whole,
    // Refused by 4: ESC, where color escapes are not let through.
    NoColor,
    // Refused by 4: it is no part of the escape.
    Unrecognized,
    // Refused by 6: the escape holds as many as it can.
    Full,
}

// What a newline and ESC come to: `crlf_compatibility` and `ansi_color` of the Rust, of which no constructor sets both.
#[derive(Clone, Copy, Debug, PartialEq, Eq)]
pub enum Mode {
    Plain,
    // A newline goes out as 0D 0A.
    Crlf,
    // ESC `[` .. `m` is let through.
    Color,
}

// The writer's record.
#[derive(Clone, Copy, Debug, PartialEq, Eq)]
pub struct TextOutput {
    pub mode: Mode,
    // A start is expected: in a fresh record, after a flush that succeeds and after a close.
    pub expect_starter: bool,
    pub state: State,
    // How many of the first lent places hold characters that wait to be handed out: `buffer` of the Rust.
    pub kept: usize,
    // How many characters of an escape in progress are held.
    pub held: usize,
    // These characters.
    pub escape_sequence: [u32; 64],
}

// A writer, and the character that it hands out on opening.
#[derive(Clone, Copy, Debug, PartialEq, Eq)]
pub struct Opened {
    pub bom: u32,
    pub writer: TextOutput,
}

// Why a write is refused.
#[derive(Clone, Copy, Debug, PartialEq, Eq)]
pub enum WriteError {
    // Nothing changed.
    Refused(Refusal),
    // The caller is to abandon the stream.
    Abandon(Refusal),
    // By 4, for this reason; the caller is to abandon the stream.
    Unwritable(BasicTextError),
}

// A write's answer, the first so many places handed out, and the record after it.
#[derive(Clone, Copy, Debug, PartialEq, Eq)]
pub struct Written {
    pub answer: Result<usize, WriteError>,
    pub next: TextOutput,
}

// The same of a write of bytes, and how many of them were taken: none where it was refused.
#[derive(Clone, Copy, Debug, PartialEq, Eq)]
pub struct WrittenBytes {
    pub used: usize,
    pub answer: Result<usize, WriteError>,
    pub next: TextOutput,
}

// Why a flush or a close is refused.
#[derive(Clone, Copy, Debug, PartialEq, Eq)]
pub enum CloseError {
    // Nothing changed.
    Refused(Refusal),
    // The caller is to abandon the stream.
    Abandon(Refusal),
}

// The answer of a flush or a close, and the record after it.
#[derive(Clone, Copy, Debug, PartialEq, Eq)]
pub struct Answered {
    pub answer: Result<(), CloseError>,
    pub next: TextOutput,
}

impl TextOutput {
    // The most characters that an escape can hold: 64.
    // "limits 64 and 136 as associated constants."
    pub const ESCAPE_SEQUENCE_SIZE: usize = 64;

    // The least size of a byte buffer to fill, the scanner's: 136.
    pub const NORMALIZATION_BUFFER_SIZE: usize = scalars::NORMALIZATION_BUFFER_SIZE;

    // A writer as first made, in a mode.
    fn in_mode(mode: Mode) -> Self
        ensures { result ≡ fresh mode }
    {
        Self {
            mode,
            expect_starter: true,
            state: State::Ground(Ground::Newline),
            kept: 0,
            held: 0,
            escape_sequence: [0u32; 64],
        }
    }

    // A plain writer.
    // "'Each writer mode is opened by a constructor of its own': Associated functions of the writer type for plain, CRLF, BOM and color"
    pub fn new() -> Self
        ensures { result ≡ fresh Plain }
    {
        TextOutput::in_mode(Mode::Plain)
    }

    // A writer that hands out a newline as 0D 0A.
    pub fn with_crlf_compatibility() -> Self
        ensures { result ≡ fresh Crlf }
    {
        TextOutput::in_mode(Mode::Crlf)
    }

    // A plain writer, and FEFF for the caller to write first. FEFF is no part of the text, so the record is a fresh one.
    pub fn with_bom_compatibility() -> Opened
        ensures bom { result.bom ≡ byte_order_mark }
        ensures writer { result.writer ≡ fresh Plain }
    {
        Opened {
            bom: BOM,
            writer: TextOutput::in_mode(Mode::Plain),
        }
    }

    // A writer that lets color escapes through.
    pub fn with_ansi_color() -> Self
        ensures { result ≡ fresh Color }
    {
        TextOutput::in_mode(Mode::Color)
    }

    // Whether the record claims a held count that its state can have, and no more than 64: what 9 lets pass. Inner; total.
    pub fn is_sound(self) -> bool
        ensures { result ≡ sound (machine_of self) }
    {
        (self.held <= TextOutput::ESCAPE_SEQUENCE_SIZE) & held_in(self.state, self.held)
    }

    // The record that expects a start.
    fn expecting(self) -> Self
        ensures { result ≡ expecting self }
    {
        let mut w = self;
        w.expect_starter = true;
        w
    }

    // A flush or a close refused for this, which changes nothing.
    fn unchanged_by(self, why: Refusal) -> Answered
        ensures answer { result.answer ≡ Err (CloseError.Refused why) }
        ensures next { result.next ≡ self }
    {
        Answered {
            answer: Err(CloseError::Refused(why)),
            next: self,
        }
    }

    // The flush of a sound record, by its state.
    fn flush_in(self, state: State) -> Answered
        ensures { answered_given result ≡ flush_in state self }
    {
        match state {
            State::Ground(ground) => self.flush_ground(ground),
            State::Esc | State::Csi => self.unchanged_by(Refusal::InEscape),
        }
    }

    #[tactic(auto, unfolding(crate::specs::Close::abandon_of))]
    fn flush_ground(self, kind: Ground) -> Answered
        ensures { answered_given result ≡ flush_in (Grounded kind) self }
    {
        match kind {
            Ground::Newline | Ground::Other => Answered {
                answer: Ok(()),
                next: self.expecting(),
            },
            Ground::ZwjOrPrepend => Answered {
                answer: Err(CloseError::Abandon(Refusal::AfterNonEnd)),
                next: self.abandon(),
            },
        }
    }

    // The stream is flushed: a start is expected again. Total: refuses 9, and then by the state 11 after a non-end, which puts the
    // writer after a newline, or 13 in an escape, which changes nothing.
    #[tactic(auto, unfolding(crate::specs::Close::flush_of))]
    pub fn flush(self) -> Answered
        ensures { answered_given result ≡ flush_of self }
    {
        if self.is_sound() {
            self.flush_in(self.state)
        } else {
            self.unchanged_by(Refusal::UnsoundWriter)
        }
    }

    // The close of a sound record, by its state: whatever it answers, a start is expected again.
    fn close_in(self, state: State) -> Answered
        ensures { answered_given result ≡ close_in state self }
    {
        match state {
            State::Ground(ground) => self.close_ground(ground),
            State::Esc | State::Csi => self.closed_by(Refusal::InEscape),
        }
    }

    fn close_ground(self, kind: Ground) -> Answered
        ensures { answered_given result ≡ close_in (Grounded kind) self }
    {
        match kind {
            Ground::Newline => Answered {
                answer: Ok(()),
                next: self.expecting(),
            },
            Ground::ZwjOrPrepend => self.closed_by(Refusal::AfterNonEnd),
            Ground::Other => self.closed_by(Refusal::AfterNoNewline),
        }
    }

    // A close refused for this.
    #[tactic(auto, unfolding(crate::specs::Close::abandon_of))]
    fn closed_by(self, why: Refusal) -> Answered
        ensures { answered_given result ≡ abandoned_by (refusal_number why ∷ []) (expecting self) }
    {
        Answered {
            answer: Err(CloseError::Abandon(why)),
            next: self.expecting().abandon(),
        }
    }

    // The stream is closed. Total: refuses 9, and then by the state 11 after a non-end, 12 after another character that is no
    // newline, or 13 in an escape; these put the writer after a newline.
    #[tactic(auto, unfolding(crate::specs::Close::close_of))]
    pub fn close(self) -> Answered
        ensures { answered_given result ≡ close_of self }
    {
        if self.is_sound() {
            self.close_in(self.state)
        } else {
            self.unchanged_by(Refusal::UnsoundWriter)
        }
    }

    // The stream is abandoned: the writer is after a newline and holds no escape. Total: refuses nothing, on any record.
    #[tactic(auto, unfolding(crate::specs::Close::abandon_of))]
    pub fn abandon(self) -> Self
        ensures { result ≡ abandon_of self }
    {
        TextOutput {
            state: State::Ground(Ground::Newline),
            held: 0,
            ..self
        }
    }
}

// Whether a state can have so many held: 1 after ESC, 2 or more after ESC `[`, else none.
fn held_in(state: State, n: usize) -> bool
    ensures { result ≡ held_in state n }
{
    match state {
        State::Ground(_) => n == 0,
        State::Esc => n == 1,
        State::Csi => 2 <= n,
    }
}

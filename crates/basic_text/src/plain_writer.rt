// The writer's record, and what a write answers, as plain numbers, in both directions. Total.
ghost use Rattle.std.specs.Prelude.{◌≡◌, []};
ghost use Rattle.text_output.specs.Writer.{bytes_outcome};
ghost use Rattle.basic_text.specs.Exports.{writer_of, writer_numbers, write_reply_of};

use super::{WriteReply, Writer};
use basic_text_numbers::{
    flag_number, flag_of, mode_number, mode_of, writer_state_number, writer_state_of,
};
use check_char::reason_of;
use common::Refusal;
use text_output::{TextOutput, WriteError, WrittenBytes};

impl From<Writer> for TextOutput {
    ghost from_gives = { λ w given. given ≡ writer_of w };

    fn from(w: Writer) -> Self {
        // A `let`: no proof covers an array that goes from one record right into another.
        let escape_sequence = w.escape_sequence;
        TextOutput {
            mode: mode_of(w.mode),
            expect_starter: flag_of(w.expect_starter),
            state: writer_state_of(w.state),
            kept: w.kept,
            held: w.held,
            escape_sequence,
        }
    }
}

impl From<TextOutput> for Writer {
    ghost from_gives = { λ w numbers. numbers ≡ writer_numbers w };

    fn from(w: TextOutput) -> Self {
        let escape_sequence = w.escape_sequence;
        Writer {
            mode: mode_number(w.mode),
            expect_starter: flag_number(w.expect_starter),
            state: writer_state_number(w.state),
            kept: w.kept,
            held: w.held,
            escape_sequence,
        }
    }
}

impl From<WrittenBytes> for WriteReply {
    ghost from_gives = { λ w reply. reply ≡ write_reply_of (bytes_outcome w []) };

    fn from(w: WrittenBytes) -> Self {
        let mut reply = WriteReply {
            refused: 0,
            abandon: 0,
            reason: 0,
            character: 0,
            count: 0,
            first: 0,
            second: 0,
            third: 0,
            used: w.used,
            written: 0,
            writer: Writer::from(w.next),
        };
        match w.answer {
            Ok(written) => reply.written = written,
            Err(WriteError::Refused(why)) => reply.refused = why.number(),
            Err(WriteError::Abandon(why)) => {
                reply.refused = why.number();
                reply.abandon = 1;
            }
            Err(WriteError::Unwritable(e)) => {
                let why = reason_of(e);
                reply.refused = Refusal::Unwritable.number();
                reply.abandon = 1;
                reply.reason = why.number;
                reply.character = why.character;
                reply.count = why.count;
                reply.first = why.first;
                reply.second = why.second;
                reply.third = why.third;
            }
        }
        reply
    }
}

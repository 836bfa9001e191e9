// A record, options and an answer as plain numbers, in both directions. Total.
ghost use Rattle.std.specs.Prelude.{◌≡◌, []};
ghost use Rattle.text_input.specs.Scan.{outcome};
ghost use Rattle.basic_text.specs.Exports.{record_of, options_of, record_numbers, reply_of};

use super::{Record, Reply};
use basic_text_numbers::{flag_number, flag_of, state_number, state_of};
use text_input::{Options, Scanned, TextInput};

impl From<Record> for TextInput {
    ghost from_gives = { λ r given. given ≡ record_of r };

    fn from(r: Record) -> Self {
        TextInput {
            state: state_of(r.state),
            expect_starter: flag_of(r.expect_starter),
            at_start: flag_of(r.at_start),
            last: r.last,
            count: r.count,
        }
    }
}

// By the three lowest bits. No impl of From: neither type is of this crate.
pub fn options_of(n: u32) -> Options
    ensures { result ≡ options_of n }
{
    Options {
        nel_compatibility: n % 2 == 1,
        lsps_compatibility: n / 2 % 2 == 1,
        units_compatibility: n / 4 % 2 == 1,
    }
}

impl From<TextInput> for Record {
    ghost from_gives = { λ r numbers. numbers ≡ record_numbers r };

    fn from(r: TextInput) -> Self {
        Record {
            state: state_number(r.state),
            expect_starter: flag_number(r.expect_starter),
            at_start: flag_number(r.at_start),
            last: r.last,
            count: r.count,
        }
    }
}

impl From<Scanned> for Reply {
    ghost from_gives = { λ s reply. reply ≡ reply_of (outcome s []) };

    fn from(s: Scanned) -> Self {
        let record = Record::from(s.next);
        match s.answer {
            Ok(written) => Reply {
                refused: 0,
                written,
                record,
            },
            Err(why) => Reply {
                refused: why.number(),
                written: 0,
                record,
            },
        }
    }
}

// Flush, close and abandon over a lent record. Document 01: "flush, close and abandon also exist over a lent record". Each calls the
// method of `text_output`, which takes the record by value, and stores the record that it returns.
// The record is lent by `flush_by_loan`, `close_by_loan` and `abandon_by_loan`, which take a record by value and hand back what the
// lent function left: a caller of these lends nothing itself.
#![tactic(auto)]

ghost use Rattle.std.specs.Prelude.{◌≡◌};
ghost use Rattle.text_output.specs.Writer.{answered_given};
ghost use Rattle.text_output.specs.Close.{flush_of, close_of, abandon_of};
ghost use Rattle.text_output_lent.specs.Lent.{leaves};

use text_output::{Answered, CloseError, TextOutput};

// Flushes the writer. Total: answers and leaves what `TextOutput::flush` does, on any record.
// "'flush, close and abandon also exist over a lent record': Thin functions taking &mut writer record, calling the covered by-value
// methods and storing the result."
pub fn flush(w: &mut TextOutput) -> Result<(), CloseError>
    ensures { leaves result w.new ≡ flush_of w.old }
{
    let done = (*w).flush();
    *w = done.next;
    done.answer
}

// Closes the writer. Total: answers and leaves what `TextOutput::close` does, on any record.
pub fn close(w: &mut TextOutput) -> Result<(), CloseError>
    ensures { leaves result w.new ≡ close_of w.old }
{
    let done = (*w).close();
    *w = done.next;
    done.answer
}

// Abandons the stream. Total: leaves what `TextOutput::abandon` does, on any record.
pub fn abandon(w: &mut TextOutput)
    ensures { w.new ≡ abandon_of w.old }
{
    *w = (*w).abandon();
}

// `flush` of a record lent to it.
pub fn flush_by_loan(w: TextOutput) -> Answered
    ensures { answered_given result ≡ flush_of w }
{
    let mut lent = w;
    let answer = flush(&mut lent);
    Answered { answer, next: lent }
}

// `close` of a record lent to it.
pub fn close_by_loan(w: TextOutput) -> Answered
    ensures { answered_given result ≡ close_of w }
{
    let mut lent = w;
    let answer = close(&mut lent);
    Answered { answer, next: lent }
}

// `abandon` of a record lent to it.
pub fn abandon_by_loan(w: TextOutput) -> TextOutput
    ensures { result ≡ abandon_of w }
{
    let mut lent = w;
    abandon(&mut lent);
    lent
}

// The check of a run: `A check`.
use crate::outcomes::Refused;
use check_run::FaultKind;
use replay_words::answers::Answers;
use replay_words::buffers::Buffers;
use replay_words::why::Why;
use replay_words::words::Words;

// A fault's kind in an answer.
fn word(kind: FaultKind) -> &'static str {
    match kind {
        FaultKind::Char => "char",
        FaultKind::Start => "start",
        FaultKind::End => "end",
        FaultKind::Newline => "newline",
    }
}

// `A check c c ..`: `yes`, `fault PLACE KIND`, or the refusal.
pub fn check(words: Words, page: &[u32], lent: Buffers, out: &mut Answers) -> Result<(), Why> {
    let run = words.numbers(lent.numbers)?;
    match check_run::check_run(page, run) {
        Ok(None) => out.line("yes"),
        Ok(Some(fault)) => out.line(format_args!("fault {:x} {}", fault.place, word(fault.kind))),
        Err(why) => out.line(Refused(why)),
    }
    Ok(())
}

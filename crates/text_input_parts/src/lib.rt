// What of the scanner needs no record, under `text_input`.
//     sets.rt       the sets of characters that the steps tell apart
//     queue.rt      what is appended, and storing it
//     refusals.rt   the refusals of a scan
#![tactic(auto)]

pub mod queue;
pub mod refusals;
pub mod sets;

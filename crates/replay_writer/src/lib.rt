// The operations `W ..` of the program `replay`: calls on the current writer.
//     writer.rt     the writer and the places that live with it
//     places.rt     whether a write left places as they were
//     outcomes.rt   what a call answered
#![tactic(auto)]

mod outcomes;
mod places;
mod writer;

pub use writer::Writer;

// Demand 3, the promise on the scanner and the writer as a whole: specs/Demand.antt over specs/Calls.antt, proofs/Demand.antt. The
// crate has no code.
#![tactic(auto)]

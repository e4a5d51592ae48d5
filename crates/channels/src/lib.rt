// Standard input, standard output and standard error. What was read and what was handed over is
// counted in values that only this crate makes, so that a program cannot count what it did not
// read or write.
#![tactic(auto)]

pub mod intake; // the bytes that are at hand
pub mod outlet; // what is written
pub mod streams; // standard input, standard output and standard error

// Types, codes, masks and small helpers of the fuse. A module for each file of the Rust crate
// lictor-core that they come from, and for the run state of fuse.rs and the tally of tally.rs,
// which everything above works on.
#![tactic(auto)]

pub mod ack; // ack.rs
pub mod chunk; // chunk.rs: sizes, action kinds, a chunk's head
pub mod code; // a number that is the code of no case
pub mod envelope; // envelope.rs: the settings, the configuration
pub mod fuse; // fuse.rs: the run state and a tick's numbers
pub mod outcome; // what the detectors found
pub mod reason; // reason.rs
pub mod rows; // copy_row of fuse.rs
pub mod scores; // scores.rs
pub mod state; // state.rs
pub mod tally; // tally.rs
pub mod verdict; // verdict.rs

// What a controller in C or Rust lends and is given, as numbers in the layout of C,
// and what they mean to the fuse. Every pattern of their bytes has a meaning.
#![tactic(auto)]

pub mod input; // what a tick is given
pub mod verdict; // what a tick gives
pub mod state; // the run state, to and from the fuse's

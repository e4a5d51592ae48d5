// The stages of a clean tick (fuse.rs, decide): each takes what it reads and answers what it finds.
// lictor_fuse calls them.
#![tactic(auto)]

pub mod findings; // stages 2 to 6, up to the machine: trips, scores, window, standstill
pub mod act; // stage 7: the action
pub mod ingest; // stage 1: the position and the velocity
pub mod verdict; // the verdict and the events

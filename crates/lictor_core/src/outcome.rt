// What the detectors found for a tick, in place of the calls of fuse.rs that are not ported.
use crate::chunk::MAX_D;
use crate::scores::Scores;

#[derive(Clone, Copy)]
pub struct Outcome {
    pub trips: u32,
    pub clamped_dims: u32,
    pub feasible: bool,
    pub margin: f64,
    pub scores: Scores,
    // the policy's action row, and the same row clamped
    pub policy: [f64; MAX_D],
    pub clamped: [f64; MAX_D],
}

// Detector scores (scores.rs).

// How many features are scored.
pub const NFEAT: usize = 12;

// The scores of a tick, without the raw features `f`.
#[derive(Clone, Copy)]
pub struct Scores {
    // standardised, one for each feature
    pub z: [f64; NFEAT],
    // aggregate score
    pub s: f64,
    // bit j: feature j could be computed
    pub valid: u32,
    // bit j: z j is above tau
    pub fired: u32,
}

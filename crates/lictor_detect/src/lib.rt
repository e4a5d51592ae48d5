// What is ported of the Rust crate lictor-detect.
#![tactic(auto)]

pub mod brake; // brake.rs: the actions of a braking and of a holding fuse
pub mod conformal; // conformal.rs: the strict trip
pub mod window; // window.rs: the hit window

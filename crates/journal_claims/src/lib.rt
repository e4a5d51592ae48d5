// Demand 3 of whole journals, and the number `stopped` that they end with: the statements
// (specs/JournalStops.antt, specs/JournalStopActions.antt), and the theorems that every list of bytes
// meets them (proofs/).
// No code: the definitions are those that `journal` and `lictor_fuse` promise.
#![tactic(auto)]

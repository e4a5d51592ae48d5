// Sample settings, outcomes and inputs for `claims`, `starred` and `cases` (specs/Samples.antt).
// No code: definitions alone.
#![tactic(auto)]

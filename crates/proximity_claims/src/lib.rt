// The list of `proximity` for whole journals: the statement (specs/EveryLine.antt),
// and the theorem that every list of bytes meets it (proofs/EveryLine.antt).
// No code: the definitions are those that `printer` and `proximity_text` promise.
#![tactic(auto)]

// Pages of whole journals: the statement (specs/EveryPage.antt),
// and the theorem that every list of bytes meets it (proofs/EveryPage.antt).
// No code: the definitions are those that `printer` and `page_text` promise.
#![tactic(auto)]

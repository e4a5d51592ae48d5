// A journal narrowed and then widened, and the numbers with which each program can refuse: the
// statements (specs/), and the theorems that every list of bytes meets them (proofs/).
// No code: the definitions are those that `journal_forms`, `journal` and `printer` promise.
#![tactic(auto)]

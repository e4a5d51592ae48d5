// The starred cases of 01-scope.md as one table (specs/Starred.antt),
// and the theorem that the definitions give them (proofs/Given.antt).
// No code: the definitions are those that the functions of the other crates promise.
#![tactic(auto)]

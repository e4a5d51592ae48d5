// The example of 01-scope.md, Journal, as bytes (specs/Example.antt),
// and the theorem that the definitions print its two lines (proofs/Printed.antt).
// No code. The definitions are those of `printer` and the crates below it;
// that the program writes this text is seen by running it (crates/fuse, stdin and stdout).
#![tactic(auto)]

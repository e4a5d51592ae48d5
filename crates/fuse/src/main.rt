// Reads a journal from standard input; writes a line for each tick, and `end` or `refused` at the
// end (01-scope.md, Journal).
//
// All that matters is in the libraries (crates/console).
#![tactic(auto)]

use std::rt::HostRuntime;

fn main(rt: HostRuntime) {
    console::play_by(&rt, b"fuse", printer::LINES);
}

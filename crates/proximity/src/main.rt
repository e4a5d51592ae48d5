// Reads a journal from standard input; writes a line for each component of a clean tick that is close
// to a face of the box, or has left it, and `refused` where it is refused (02-change-requests.md,
// Ask 7).
//
// All that matters is in the libraries (crates/console).
#![tactic(auto)]

use std::rt::HostRuntime;

fn main(rt: HostRuntime) {
    console::play_by(&rt, b"proximity", printer::PROXIMITY);
}

// As `fuse`, and after each line `tick` every field of the verdict, the run state and the tally
// that the Rust has, one `name=value` a line.
#![tactic(auto)]

use std::rt::HostRuntime;

fn main(rt: HostRuntime) {
    console::play_by(&rt, b"trace", printer::TRACE);
}

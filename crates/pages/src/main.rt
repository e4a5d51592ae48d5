// Reads a journal from standard input; writes its ticks as pages of 50 rows, a line with the page's
// number after each, and `refused` where it is refused (02-change-requests.md, Ask 1).
//
// All that matters is in the libraries (crates/console).
#![tactic(auto)]

use std::rt::HostRuntime;

fn main(rt: HostRuntime) {
    console::play_by(&rt, b"pages", printer::PAGES);
}

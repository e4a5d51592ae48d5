// Reads a journal of the narrow form from standard input; writes it in the wide form, and the line
// of a refusal to standard error (02-change-requests.md, Ask 9).
//
// All that matters is in the libraries (crates/converter).
#![tactic(auto)]

use journal_forms::Form;
use std::rt::HostRuntime;

fn main(rt: HostRuntime) {
    converter::convert(&rt, b"widen", Form::Narrow);
}

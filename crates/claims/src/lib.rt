// Claims about whole lists of calls: demand 3, the tally and its history, the end of the clock,
// the counters. The statements are in specs/, their proofs in proofs/. They speak of the
// definitions that `tick` of lictor_fuse and `new` and `reset` of lictor_fuse::episode promise,
// so the only code here is what ties their sizes to the types.
#![tactic(auto)]

ghost use Rattle.std.specs.Prelude.{◌≡◌, true, List, ◌≤◌};
ghost use Rattle.claims.specs.ClockEnd.{last_time};
ghost use Rattle.claims.specs.Calls.{Entry, ticks_among};
ghost use Rattle.claims.specs.Demand3.{Sized, Acks, StopsCloseUnder};
ghost use Rattle.claims.specs.Nonces.{nonces_of, Eight};

use lictor_core::envelope::Settings;
use lictor_core::fuse::{FuseRt, TickInput};

// Demand 3: whatever settings the code holds, each limit is a number that its counter can reach,
// and stops close in every list of calls under them.
pub fn stops_close(s: Settings) -> bool
    ensures { (result ≡ true) × Sized s × StopsCloseUnder s }
{
    true
}

// Whatever run state the code holds, it stores eight nonces, and no acknowledgement is consumed
// twice in any list of calls and resets from it on.
pub fn acks_once(rt: FuseRt) -> bool
    ensures { (result ≡ true) × Eight (nonces_of rt) × ((es : List Entry) → Acks (ticks_among rt es)) }
{
    true
}

// Whatever a tick brings, its t is none after the clock's last.
pub fn in_time(inp: TickInput) -> bool
    ensures { (result ≡ true) × (inp.t ≤ last_time) }
{
    true
}

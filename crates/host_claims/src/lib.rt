// A host's list of calls is the fuse's own, and demand 3 holds of it, its part on acknowledgements
// over all resets; cut in two stretches, its tallies are joined to that of the uncut list.
// The statements are specs/HostRun.antt, specs/HostAcks.antt and specs/HostCut.antt,
// and the theorems are in proofs/ under the same names.
// The definitions are those that `host_c` and `lictor_fuse` promise,
// so the only code here is what ties the sizes of settings and run state to their types.
// They are no twins of those in `claims`: they say another thing, of another type, and
// docs/ARCHITECTURE.md names both.
#![tactic(auto)]

ghost use Rattle.std.specs.Prelude.{◌≡◌, true};
ghost use Rattle.host_claims.specs.HostAcks.{HostAcksOnce};
ghost use Rattle.host_claims.specs.HostRun.{HostStopsUnder};

use host_layout::input::Settings;
use host_layout::state::RunState;

// Whatever settings a host holds, stops close in every list of its calls under them.
pub fn stops_close(s: Settings) -> bool
    ensures { (result ≡ true) × HostStopsUnder s }
{
    true
}

// Whatever run state a host lends, no acknowledgement is consumed twice in any list of its calls
// and resets.
pub fn acks_once(rt: RunState) -> bool
    ensures { (result ≡ true) × HostAcksOnce rt }
{
    true
}

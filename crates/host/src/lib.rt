// The fuse for a host that lends its run state: each call changes it where it lies
// (fuse.rs, reset and decide).
#![tactic(auto)]

ghost use Rattle.std.specs.Prelude.{◌≡◌, false};
ghost use Rattle.lictor_core.specs.Initial.{reset_of};
ghost use Rattle.lictor_settings.specs.Settings.{check_of, check_number};
ghost use Rattle.lictor_fuse.specs.Tick.{tick_of, is_accepted, no_verdict};
ghost use Rattle.host.specs.Host.{host_answer_of, host_number};

use lictor_core::envelope::Settings;
use lictor_core::fuse::{FuseRt, Lists, TickInput};
use lictor_core::outcome::Outcome;
use lictor_core::verdict::SafetyVerdict;
use lictor_fuse::{accepted_tick, no_verdict};
use lictor_settings::{SettingsFault, check};

// What a call answers: what the check of the settings says, and the verdict where it accepts them.
// Both, and no Result: on a refusal `tick` promises the number and `no_verdict`.
#[derive(Clone, Copy)]
pub struct HostAnswer {
    pub check: Result<(), SettingsFault>,
    pub verdict: SafetyVerdict,
}

// Starts an episode in the lent run state.
pub fn reset(rt: &mut FuseRt)
    ensures { rt.new ≡ reset_of rt.old }
{
    *rt = lictor_fuse::episode::reset(*rt);
}

// One tick of the lent run state. Where the settings are refused, the answer has the number of the
// cause and no verdict, and nothing is written.
// All NaNs are one value in this promise: which pattern a NaN has is left open, and nothing depends
// on it.
#[tactic(auto, unfolding(lictor_fuse::specs::Tick::tick_of, lictor_fuse::specs::Tick::tick_by, lictor_fuse::specs::Tick::refused_tick))]
pub fn tick(rt: &mut FuseRt, s: Settings, inp: TickInput, out: Outcome, lists: Lists) -> HostAnswer
    ensures { (result ≡ host_answer_of (tick_of s rt.old inp out lists.entry.pos.now lists.entry.vel.now lists.entry.aux.now lists.entry.ext.now lists.entry.chunk.now))
        × (rt.new ≡ (tick_of s rt.old inp out lists.entry.pos.now lists.entry.vel.now lists.entry.aux.now lists.entry.ext.now lists.entry.chunk.now).rt)
        × (is_accepted (check_of s) ≡ false → (host_number result ≡ check_number (check_of s)) × (result.verdict ≡ no_verdict) × (rt.new ≡ rt.old)) }
{
    let checked = check(s);
    if checked.is_err() {
        return HostAnswer {
            check: checked,
            verdict: no_verdict(),
        };
    }
    let t = accepted_tick(s, *rt, inp, out, lists);
    *rt = t.rt;
    HostAnswer {
        check: t.check,
        verdict: t.verdict,
    }
}

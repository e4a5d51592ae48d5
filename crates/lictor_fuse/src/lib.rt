// One call with settings: their check, and one tick under those that pass it.
#![tactic(auto)]

mod clean_tick; // what a clean tick brings to the machine, and what it comes to
pub mod decide; // one tick
pub mod episode; // the run state at the start of an episode
mod fault_tick; // the same of a fault tick

ghost use Rattle.std.specs.Prelude.{◌≡◌};
ghost use Rattle.lictor_fuse.specs.Tick.{no_verdict, accepted_tick, refused_tick, tick_of};

use crate::decide::decide;
use lictor_core::envelope::Settings;
use lictor_core::fuse::{FuseRt, Lists, TickInput};
use lictor_core::outcome::Outcome;
use lictor_core::reason::ReasonCode;
use lictor_core::rows::no_row;
use lictor_core::state::FuseState;
use lictor_core::verdict::{ActionSource, SafetyVerdict, Status};
use lictor_settings::{SettingsFault, check, config};
use lictor_stages::verdict::disarmed_scores;

// What a call with settings answers: their check, and what `decide` gives where they pass it.
#[derive(Clone, Copy)]
pub struct Ticked {
    pub check: Result<(), SettingsFault>,
    pub rt: FuseRt,
    pub verdict: SafetyVerdict,
}

// ---- one call with settings

// What is in the verdict's place where the settings are refused.
// Which pattern a NaN has is the program's choice.
#[tactic(auto, unfolding(crate::specs::Tick::no_verdict))]
pub fn no_verdict() -> SafetyVerdict
    ensures { result ≡ no_verdict }
{
    let action = no_row();
    let scores = disarmed_scores();
    let margin = fmath::nan();
    SafetyVerdict {
        seq: 0,
        t: 0,
        status: Status::Nominal,
        state: FuseState::Idle,
        prev_state: FuseState::Idle,
        trips: 0,
        action,
        action_dim: 0,
        action_src: ActionSource::Hold,
        substituted: false,
        clamped_dims: 0,
        scores,
        tau: margin,
        window: 0,
        window_hits: 0,
        brake_margin: margin,
        reason: ReasonCode::Ok,
        handoff_seq: None,
        ack_consumed: false,
        violation_reached_env: false,
    }
}

#[tactic(auto, unfolding(crate::specs::Tick::refused_tick))]
fn refused_tick(c: Result<(), SettingsFault>, rt: FuseRt) -> Ticked
    ensures { result ≡ refused_tick c rt }
{
    Ticked {
        check: c,
        rt,
        verdict: no_verdict(),
    }
}

// One tick under settings that are accepted.
#[tactic(auto, unfolding(crate::specs::Tick::accepted_tick, crate::specs::Tick::given_of))]
pub fn accepted_tick(s: Settings, rt: FuseRt, inp: TickInput, out: Outcome, lists: Lists) -> Ticked
    ensures { result ≡ accepted_tick s rt inp out lists.entry.pos.now lists.entry.vel.now lists.entry.aux.now lists.entry.ext.now lists.entry.chunk.now }
{
    let d = decide(config(s), rt, inp, out, lists);
    Ticked {
        check: Ok(()),
        rt: d.rt,
        verdict: d.verdict,
    }
}

// One call: settings that fail the check answer that, and nothing changes;
// else one tick under them.
// All NaNs are one value in this promise: which pattern a NaN has is left open,
// and nothing else depends on it.
#[tactic(auto, unfolding(crate::specs::Tick::tick_of, crate::specs::Tick::tick_by))]
pub fn tick(s: Settings, rt: FuseRt, inp: TickInput, out: Outcome, lists: Lists) -> Ticked
    ensures { result ≡ tick_of s rt inp out lists.entry.pos.now lists.entry.vel.now lists.entry.aux.now lists.entry.ext.now lists.entry.chunk.now }
{
    let c = check(s);
    if c.is_ok() {
        accepted_tick(s, rt, inp, out, lists)
    } else {
        refused_tick(c, rt)
    }
}

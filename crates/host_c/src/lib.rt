// What a controller in C or Rust calls, as a library: the crate `host_c_c` exports the functions
// below to C, with the same clauses.
// The host lends its run state, which each call changes where it lies,
// and all that a tick is given, which is only read.
// Every type here is numbers in the layout of C, and every pattern of their bytes has a meaning,
// so that a call asks nothing of its caller but memory.
#![tactic(auto)]

ghost use Rattle.std.specs.Prelude.{◌≡◌, false};
ghost use Rattle.fmath.specs.Root.{root_of};
ghost use Rattle.lictor_core.specs.Initial.{new_of};
ghost use Rattle.lictor_settings.specs.Settings.{check_of, check_number};
ghost use Rattle.lictor_fuse.specs.Tick.{is_accepted, no_verdict};
ghost use Rattle.host_c.specs.Call.{called_of, answer_of, reset_run, joined_tally};
ghost use Rattle.host_layout.specs.Input.{settings_in};
ghost use Rattle.host_layout.specs.State.{state_out};
ghost use Rattle.host_layout.specs.Verdict.{verdict_out};

use host_layout::input::{Input, Outcome, Settings};
use host_layout::state::{RunState, Tally};
use host_layout::verdict::Verdict;
use lictor_core::fuse::Lists;
use lictor_fuse::{accepted_tick, episode, no_verdict};
use lictor_settings::{check, check_number};
use lictor_tally::join;

// What a call answers: 0 and the verdict, or the number of a refusal of the settings.
// A number beside a verdict, and no Result: it is the C interface.
#[repr(C)]
#[derive(Clone, Copy)]
pub struct Answer {
    pub number: u8,
    pub verdict: Verdict,
}

// The same, with the run state that is left: the definitions of a call speak of it.
#[derive(Clone, Copy)]
pub struct Called {
    pub number: u8,
    pub rt: RunState,
    pub verdict: Verdict,
}

// A run state for which no episode has begun.
pub fn disklorva_new() -> RunState
    ensures { result ≡ state_out new_of }
{
    episode::new().into()
}

// Starts an episode in the lent run state. Every field is promised;
// the bytes between the fields, and which pattern a NaN has, are the program's choice.
#[tactic(auto, unfolding(crate::specs::Call::reset_run))]
pub fn disklorva_reset(rt: &mut RunState)
    ensures { rt.new ≡ reset_run rt.old }
{
    *rt = episode::reset((*rt).into()).into();
}

// One tick of the lent run state. Where the settings are refused, the answer has the number of the
// cause and no verdict, and nothing is written: not even the bytes between the fields change.
// Where they are accepted, every field of state and answer is promised; the bytes between the
// fields, and which pattern a NaN has, are the program's choice, and nothing depends on them.
// Settings, input, outcome and lists are only read. The lists are five parameters: the C interface.
#[tactic(auto, unfolding(crate::specs::Call::call_of, crate::specs::Call::kept_of, lictor_fuse::specs::Tick::tick_of, lictor_fuse::specs::Tick::tick_by, lictor_fuse::specs::Tick::refused_tick, lictor_fuse::specs::Tick::accepted_tick, lictor_fuse::specs::Tick::given_of))]
pub fn disklorva_tick(
    rt: &mut RunState,
    s: &Settings,
    inp: &Input,
    out: &Outcome,
    pos: &[f64],
    vel: &[f64],
    aux: &[f64],
    ext: &[f64],
    chunk: &[f64],
) -> Answer
    ensures { (result ≡ answer_of (called_of rt.old s.now inp.now out.now pos.now vel.now aux.now ext.now chunk.now))
        × (rt.new ≡ (called_of rt.old s.now inp.now out.now pos.now vel.now aux.now ext.now chunk.now).rt)
        × (is_accepted (check_of (settings_in s.now)) ≡ false → (result.number ≡ check_number (check_of (settings_in s.now))) × (result.verdict ≡ verdict_out no_verdict) × (rt.new ≡ rt.old)) }
{
    let settings = (*s).into();
    let number = check_number(check(settings));
    if number != 0 {
        return Answer {
            number,
            verdict: no_verdict().into(),
        };
    }
    let lists = Lists {
        pos,
        vel,
        aux,
        ext,
        chunk,
    };
    let t = accepted_tick(settings, (*rt).into(), (*inp).into(), (*out).into(), lists);
    *rt = t.rt.into();
    Answer {
        number,
        verdict: t.verdict.into(),
    }
}

// The tally of an episode that was counted in two stretches, cut after some tick. Every field is
// promised; the bytes between the fields, and which pattern a NaN has, are the program's choice.
// Both tallies are only read.
#[tactic(auto, unfolding(crate::specs::Call::joined_tally))]
pub fn disklorva_join(earlier: &Tally, later: &Tally) -> Tally
    ensures { result ≡ joined_tally earlier.now later.now }
{
    join((*earlier).into(), (*later).into()).into()
}

// The square root that the tick uses, the double nearest the exact root, to be measured or compared
// alone. Which pattern a NaN has is the program's choice.
pub fn disklorva_sqrt(x: f64) -> f64
    ensures { result ≡ root_of x }
{
    fmath::sqrt(x)
}

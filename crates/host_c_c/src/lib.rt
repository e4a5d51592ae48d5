// The fuse as a static library: what a controller in C or Rust calls.
// Each export calls the function of its name in `host_c` and says its clauses again, so that what
// C links is what a crate above `host_c` reads.
// The host lends its run state, which each call changes where it lies,
// and all that a tick is given, which is only read.
// Every type here is numbers in the layout of C, and every pattern of their bytes has a meaning,
// so that a call asks nothing of its caller but memory.
#![tactic(auto)]

ghost use Rattle.std.specs.Prelude.{◌≡◌, false};
ghost use Rattle.fmath.specs.Root.{root_of};
ghost use Rattle.lictor_core.specs.Initial.{new_of};
ghost use Rattle.lictor_settings.specs.Settings.{check_of, check_number};
ghost use Rattle.lictor_fuse.specs.Tick.{is_accepted, no_verdict};
ghost use Rattle.host_c.specs.Call.{called_of, answer_of, reset_run, joined_tally};
ghost use Rattle.host_layout.specs.Input.{settings_in};
ghost use Rattle.host_layout.specs.State.{state_out};
ghost use Rattle.host_layout.specs.Verdict.{verdict_out};

use host_c::Answer;
use host_layout::input::{Input, Outcome, Settings};
use host_layout::state::{RunState, Tally};

// A run state for which no episode has begun.
#[unsafe(no_mangle)]
pub extern "C" fn disklorva_new() -> RunState
    ensures { result ≡ state_out new_of }
{
    host_c::disklorva_new()
}

// Starts an episode in the lent run state. Every field is promised;
// the bytes between the fields, and which pattern a NaN has, are the program's choice.
#[unsafe(no_mangle)]
pub extern "C" fn disklorva_reset(rt: &mut RunState)
    ensures { rt.new ≡ reset_run rt.old }
{
    host_c::disklorva_reset(rt);
}

// One tick of the lent run state. Where the settings are refused, the answer has the number of the
// cause and no verdict, and nothing is written: not even the bytes between the fields change.
// Where they are accepted, every field of state and answer is promised; the bytes between the
// fields, and which pattern a NaN has, are the program's choice, and nothing depends on them.
// Settings, input, outcome and lists are only read.
#[unsafe(no_mangle)]
pub extern "C" fn disklorva_tick(
    rt: &mut RunState,
    s: &Settings,
    inp: &Input,
    out: &Outcome,
    pos: &[f64],
    vel: &[f64],
    aux: &[f64],
    ext: &[f64],
    chunk: &[f64],
) -> Answer
    ensures { (result ≡ answer_of (called_of rt.old s.now inp.now out.now pos.now vel.now aux.now ext.now chunk.now))
        × (rt.new ≡ (called_of rt.old s.now inp.now out.now pos.now vel.now aux.now ext.now chunk.now).rt)
        × (is_accepted (check_of (settings_in s.now)) ≡ false → (result.number ≡ check_number (check_of (settings_in s.now))) × (result.verdict ≡ verdict_out no_verdict) × (rt.new ≡ rt.old)) }
{
    host_c::disklorva_tick(rt, s, inp, out, pos, vel, aux, ext, chunk)
}

// The tally of an episode that was counted in two stretches, cut after some tick. Every field is
// promised; the bytes between the fields, and which pattern a NaN has, are the program's choice.
// Both tallies are only read.
#[unsafe(no_mangle)]
pub extern "C" fn disklorva_join(earlier: &Tally, later: &Tally) -> Tally
    ensures { result ≡ joined_tally earlier.now later.now }
{
    host_c::disklorva_join(earlier, later)
}

// The square root that the tick uses, the double nearest the exact root, to be measured or compared
// alone. Which pattern a NaN has is the program's choice.
#[unsafe(no_mangle)]
pub extern "C" fn disklorva_sqrt(x: f64) -> f64
    ensures { result ≡ root_of x }
{
    host_c::disklorva_sqrt(x)
}

// Runs the case of 01-scope.md that has no star, and writes a line for each tick:
// its name, and the line of `fuse` for it.
//
//     last t at its end: the next tick's SCHEMA, for many values of its t
//
// Each line starts anew: a reset, a tick that only sets the clock (it brings no chunk, and so is a
// fault tick), and a tick with which nothing is wrong but, where there is no next t, its t.
// The lines that begin with another last t show that such a tick passes (trips 0).
// What is expected, the file `stdout`, was written by the second program, the Rust:
// `differential/sample DIR --store` (differential/README.md).
// The other case that is executed, roots against IEEE 754, is the program `roots`;
// `clock_ends` in `claims` says the case over all t.
#![tactic(auto)]

ghost use Rattle.std.specs.Prelude.{◌≡◌, true, false, None};
ghost use Rattle.text.specs.Line.{line_of};
ghost use Rattle.lictor_core.specs.Initial.{zero_float};
ghost use Rattle.samples.specs.Samples.{sample_outcome, sample_input};
ghost use Rattle.cases.specs.Cases.{name_text, wide_limits, clock_settings, clock_tick, clock_at, tick_after};

use lictor_core::chunk::{ActionKind, ChunkHead};
use lictor_core::envelope::{Calibration, ClampMode, Hysteresis, RearmPolicy, Settings};
use lictor_core::fuse::{FuseRt, Lists, TickInput};
use lictor_core::outcome::Outcome;
use lictor_core::rows::no_row;
use lictor_core::scores::{NFEAT, Scores};
use lictor_core::state::FuseMode;
use lictor_core::verdict::{BRAKE, TIER0_SOFT};
use lictor_fuse::Ticked;
use lictor_fuse::episode::{new, reset};
use report::render::show_tick;
use text::Line;

// ---- what a tick is given

// The bits that a tier 0 check can find.
const TIER0: u32 = TIER0_SOFT | BRAKE;

// No limit is in the way; any number of ticks may be missed.
#[tactic(auto, unfolding(crate::specs::Cases::wide_limits, lictor_core::proofs::Literals::literal))]
fn limits() -> Hysteresis
    ensures { result ≡ wide_limits }
{
    Hysteresis {
        k: 1,
        warn_margin: 0.0,
        clear_ticks: 1,
        clamp_streak_to_brake: 255,
        max_clamps_per_episode: 65535,
        stop_confirm_ticks: 1,
        v_stop_eps: 0.0,
        brake_timeout_ticks: 65535,
        rearm_hold: 65535,
        max_rearms: 255,
        escalate_after_hold_ticks: 65535,
        handoff_timeout_ticks: 4294967295,
        watchdog_ticks: 255,
    }
}

// Enforce, EePosition, one component, chunks of one row.
#[tactic(auto, unfolding(crate::specs::Cases::clock_settings, lictor_core::proofs::Literals::literal))]
fn settings() -> Settings
    ensures { result ≡ clock_settings }
{
    Settings {
        mode: FuseMode::Enforce as u8,
        kind: ActionKind::EePosition as u8,
        clamp: ClampMode::Project as u8,
        rearm: RearmPolicy::AckOnly as u8,
        dim: 1,
        pos_dim: 1,
        horizon: 1,
        exec: 1,
        dt: 0.0,
        inv_dt: 0.0,
        a_max: 0.0,
        box_lo: no_row(),
        box_hi: no_row(),
        hyst: limits(),
        window_mask: 1,
        tier0_enabled: TIER0,
        calib: Calibration { mask: 0, tau: 0.0 },
    }
}

// Nothing trips.
#[tactic(auto, unfolding(lictor_core::specs::Initial::zeros, lictor_core::proofs::Literals::literal))]
fn outcome() -> Outcome
    ensures { result ≡ sample_outcome 0 true zero_float }
{
    Outcome {
        trips: 0,
        clamped_dims: 0,
        feasible: true,
        margin: 0.0,
        scores: Scores {
            z: [0.0; NFEAT],
            s: 0.0,
            valid: 0,
            fired: 0,
        },
        policy: no_row(),
        clamped: no_row(),
    }
}

// A tick at t, with this chunk.
fn input(t: u32, missed: u8, chunk: Option<ChunkHead>) -> TickInput
    ensures { result ≡ sample_input t missed false chunk None }
{
    TickInput {
        t,
        idx: 0,
        missed_ticks: missed,
        schema_fault: false,
        has_vel: false,
        chunk,
        ack: None,
    }
}

// ---- two ticks

// One tick, with or without a chunk and its values; nothing trips.
#[tactic(auto, unfolding(crate::specs::Cases::clock_tick, lictor_core::proofs::Literals::literal))]
fn clock_tick(rt: FuseRt, t: u32, missed: u8, chunk: Option<ChunkHead>, values: &[f64]) -> Ticked
    ensures { result ≡ clock_tick rt t missed chunk values.now }
{
    let lists = Lists {
        pos: &[0.0],
        vel: &[],
        aux: &[],
        ext: &[],
        chunk: values,
    };
    lictor_fuse::tick(settings(), rt, input(t, missed, chunk), outcome(), lists)
}

// The run state after the tick that sets the clock.
#[tactic(auto, unfolding(crate::specs::Cases::clock_at))]
fn first(last: u32) -> FuseRt
    ensures { result ≡ clock_at last }
{
    clock_tick(reset(new()), last, 0, None, &[]).rt
}

// The number of standard output.
const OUTPUT: i32 = 1;

// A last t, the ticks that are missed after it, and the t of the next tick.
#[derive(Clone, Copy)]
struct Case {
    last: u32,
    missed: u8,
    t: u32,
}

impl Case {
    // The tick after the last one, which brings a chunk that fits its t.
    #[tactic(auto, unfolding(crate::specs::Cases::tick_after, lictor_core::proofs::Literals::literal))]
    fn after(self) -> Ticked
        ensures { result ≡ tick_after self.last self.missed self.t }
    {
        let head = ChunkHead {
            seq: 0,
            t_emit: self.t,
            horizon: 1,
            dim: 1,
            exec_steps: 1,
        };
        clock_tick(first(self.last), self.t, self.missed, Some(head), &[0.0])
    }

    // The name with which its line begins.
    #[tactic(auto, using(text::proofs::Lines::push_line), unfolding(crate::specs::Cases::name_text))]
    fn name(self) -> Line
        ensures { result ≡ line_of (name_text self.last self.missed self.t) }
    {
        let mut name = Line::new();
        name.push(b"last t ");
        name.push_number(u64::from(self.last));
        name.push(b", missed ");
        name.push_number(u64::from(self.missed));
        name.push(b", t ");
        name.push_number(u64::from(self.t));
        name.push(b": ");
        name
    }

    // Writes its name, and the line of its second tick, which goes through `out`.
    fn run(self, out: &mut [u8]) {
        io::write_all(OUTPUT, self.name().as_bytes());
        let n = show_tick(self.after().verdict, out, 0);
        if let Some(line) = out.get(..n) {
            io::write_all(OUTPUT, line);
        }
    }
}

// ---- the cases

// Times to try after the last one: the next ones if the clock wrapped, the middle, its end.
const TIMES: [u32; 8] = [0, 1, 2, 255, 2147483647, 2147483648, 4294967294, 4294967295];

// The last t that there is, by missed ticks or without, and one past it.
const NEAR_END: [(u32, u8, u32); 6] = [
    (4294967294, 0, 4294967295),
    (4294967294, 0, 0),
    (4294967294, 1, 0),
    (4294967040, 254, 4294967295),
    (4294967040, 255, 0),
    (0, 0, 1),
];

fn main() {
    let mut out = io::large_buffer();
    // the ticks after the last t that there is
    for missed in [0, 1, 255] {
        for t in TIMES {
            Case {
                last: u32::MAX,
                missed,
                t,
            }
            .run(&mut out);
        }
    }
    for (last, missed, t) in NEAR_END {
        Case { last, missed, t }.run(&mut out);
    }
}

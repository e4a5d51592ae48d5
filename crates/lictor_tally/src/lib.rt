// The counts of an episode (tally.rs): an empty tally, what a chunk and a tick make of one, and the
// join of two (request 3). The types are in lictor_core, the rules of the fields in the modules
// counts and joins.
#![tactic(auto)]

mod counts; // the rules of the fields
mod joins; // the rules by which the lists of two tallies are joined

ghost use Rattle.std.specs.Prelude.{◌≡◌};
ghost use Rattle.lictor_core.specs.Initial.{empty_tally};
ghost use Rattle.lictor_tally.specs.Join.{join_of};
ghost use Rattle.lictor_tally.specs.Tally.{record_of, record_chunk};

use crate::counts::{count_bits, count_if, first, first_reason, is_nominal, most_live, stops_arm};
use crate::joins::{max_each, sum_each};
use lictor_core::scores::NFEAT;
use lictor_core::state::{FuseState, is_stop};
use lictor_core::tally::Tally;
use lictor_core::verdict::{SafetyVerdict, TRIP_BITS};

// What the state machine did in a tick beyond what its verdict shows.
#[derive(Clone, Copy, Default)]
pub struct TickEvents {
    // Held was entered
    pub entered_hold: bool,
    // Escalated was entered: a handoff began
    pub entered_escalated: bool,
    // the run state's count of rearms moved
    pub rearmed: bool,
    // the run state's count of clamps moved
    pub clamped: bool,
    // the channels whose z is a real score in this tick: in the calibration's mask, and valid
    pub live_z: u32,
}

// Tally::default.
#[tactic(auto, unfolding(lictor_core::specs::Initial::empty_tally))]
pub fn empty() -> Tally
    ensures { result ≡ empty_tally }
{
    let lowest = fmath::minus_infinity();
    Tally {
        ticks: 0,
        nominal: 0,
        watching: 0,
        clamped: 0,
        braking: 0,
        held: 0,
        escalated: 0,
        fault: 0,
        terminated: 0,
        substituted: 0,
        chunks_seen: 0,
        chunks_rejected: 0,
        clamps: 0,
        holds: 0,
        rearms: 0,
        escalations: 0,
        trips_by_bit: [0; TRIP_BITS],
        fired_by_feat: [0; NFEAT],
        first_trip_tick: None,
        first_trip_reason: None,
        first_stop_tick: None,
        handoff_tick: None,
        violations_reached_env: 0,
        max_s: lowest,
        max_z: [lowest; NFEAT],
        terminal_state: FuseState::Idle,
        stop_actions: 0,
    }
}

// ---- a tick and a chunk

// Tally::record: the verdict of a tick, once it is final, and its events.
// All NaNs are one value in this promise: which pattern a NaN has is left open, and nothing else
// depends on it.
#[tactic(auto, unfolding(crate::specs::Tally::record_of))]
pub fn record(tally: Tally, verdict: SafetyVerdict, ev: TickEvents) -> Tally
    ensures { result ≡ record_of tally verdict ev }
{
    let state = verdict.state;
    let trips = verdict.trips != 0;
    Tally {
        ticks: tally.ticks.saturating_add(1),
        nominal: count_if(is_nominal(state), tally.nominal),
        watching: count_if(state == FuseState::Watching, tally.watching),
        clamped: count_if(state == FuseState::Clamped, tally.clamped),
        braking: count_if(state == FuseState::Braking, tally.braking),
        held: count_if(state == FuseState::Held, tally.held),
        escalated: count_if(state == FuseState::Escalated, tally.escalated),
        fault: count_if(state == FuseState::Fault, tally.fault),
        terminated: count_if(state == FuseState::Terminated, tally.terminated),
        substituted: count_if(verdict.substituted, tally.substituted),
        chunks_seen: tally.chunks_seen,
        chunks_rejected: tally.chunks_rejected,
        clamps: count_if(ev.clamped, tally.clamps),
        holds: count_if(ev.entered_hold, tally.holds),
        rearms: count_if(ev.rearmed, tally.rearms),
        escalations: count_if(ev.entered_escalated, tally.escalations),
        trips_by_bit: count_bits(tally.trips_by_bit, verdict.trips),
        fired_by_feat: count_bits(tally.fired_by_feat, verdict.scores.fired),
        first_trip_tick: first(trips, verdict.t, tally.first_trip_tick),
        first_trip_reason: first_reason(
            trips,
            tally.first_trip_tick,
            verdict.reason,
            tally.first_trip_reason,
        ),
        first_stop_tick: first(is_stop(state), verdict.t, tally.first_stop_tick),
        handoff_tick: first(ev.entered_escalated, verdict.t, tally.handoff_tick),
        violations_reached_env: count_if(
            verdict.violation_reached_env,
            tally.violations_reached_env,
        ),
        max_s: fmath::max(tally.max_s, verdict.scores.s),
        max_z: most_live(tally.max_z, verdict.scores.z, ev.live_z),
        terminal_state: state,
        stop_actions: count_if(stops_arm(state, verdict.action_src), tally.stop_actions),
    }
}

// Tally::record_chunk: a chunk was taken in this tick, before its verdict is known.
// Which pattern a NaN has is the program's choice.
#[tactic(auto, unfolding(crate::specs::Tally::record_chunk))]
pub fn record_chunk(tally: Tally, rejected: bool) -> Tally
    ensures { result ≡ record_chunk tally rejected }
{
    Tally {
        chunks_seen: tally.chunks_seen.saturating_add(1),
        chunks_rejected: count_if(rejected, tally.chunks_rejected),
        ..tally
    }
}

// ---- two stretches of one episode (request 3)

// The tally of both, of any two tallies. The Rust has no such function.
// Which pattern a NaN has is the program's choice.
#[tactic(auto, unfolding(crate::specs::Join::join_of, crate::specs::Join::sum_of, crate::specs::Join::mark_of, crate::specs::Join::marked_by, crate::specs::Join::last_by))]
pub fn join(earlier: Tally, later: Tally) -> Tally
    ensures { result ≡ join_of earlier later }
{
    Tally {
        ticks: earlier.ticks.saturating_add(later.ticks),
        nominal: earlier.nominal.saturating_add(later.nominal),
        watching: earlier.watching.saturating_add(later.watching),
        clamped: earlier.clamped.saturating_add(later.clamped),
        braking: earlier.braking.saturating_add(later.braking),
        held: earlier.held.saturating_add(later.held),
        escalated: earlier.escalated.saturating_add(later.escalated),
        fault: earlier.fault.saturating_add(later.fault),
        terminated: earlier.terminated.saturating_add(later.terminated),
        substituted: earlier.substituted.saturating_add(later.substituted),
        chunks_seen: earlier.chunks_seen.saturating_add(later.chunks_seen),
        chunks_rejected: earlier
            .chunks_rejected
            .saturating_add(later.chunks_rejected),
        clamps: earlier.clamps.saturating_add(later.clamps),
        holds: earlier.holds.saturating_add(later.holds),
        rearms: earlier.rearms.saturating_add(later.rearms),
        escalations: earlier.escalations.saturating_add(later.escalations),
        trips_by_bit: sum_each(earlier.trips_by_bit, later.trips_by_bit),
        fired_by_feat: sum_each(earlier.fired_by_feat, later.fired_by_feat),
        first_trip_tick: earlier.first_trip_tick.or(later.first_trip_tick),
        // of the tally that gives the mark
        first_trip_reason: if earlier.first_trip_tick.is_some() {
            earlier.first_trip_reason
        } else {
            later.first_trip_reason
        },
        first_stop_tick: earlier.first_stop_tick.or(later.first_stop_tick),
        handoff_tick: earlier.handoff_tick.or(later.handoff_tick),
        violations_reached_env: earlier
            .violations_reached_env
            .saturating_add(later.violations_reached_env),
        max_s: fmath::max(earlier.max_s, later.max_s),
        max_z: max_each(earlier.max_z, later.max_z),
        terminal_state: if later.ticks == 0 {
            earlier.terminal_state
        } else {
            later.terminal_state
        },
        stop_actions: earlier.stop_actions.saturating_add(later.stop_actions),
    }
}

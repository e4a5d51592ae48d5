// The two long records of a journal, settings and outcome: what their bodies hold.
ghost use Rattle.std.specs.Prelude.{◌≡◌, ◌≤◌};
ghost use Rattle.lictor_core.specs.Sizes.{features};
ghost use Rattle.journal_records.specs.Little.{floats_at as Little·floats_at};
ghost use Rattle.journal_records.specs.Long.{limits_of, calibration_of, settings_of, scores_in, outcome_of};

use crate::little::{byte, f64_at, flag_set, le16, le32, le64};
use lictor_core::envelope::{Calibration, Hysteresis, Settings};
use lictor_core::outcome::Outcome;
use lictor_core::scores::Scores;

// N floats, one after the other, from a place on.
fn floats_at<const N: usize>(body: &[u8], at: usize) -> [f64; N]
    requires { (at ≤ 1024) × (N ≤ features) }
    ensures { result ≡ Little·floats_at body.now at N }
{
    let mut floats = [0.0; N];
    for (i, float) in floats.iter_mut().enumerate() {
        *float = f64_at(body, at + i * 8);
    }
    floats
}

#[tactic(auto, unfolding(crate::specs::Long::limits_of))]
fn read_limits(body: &[u8]) -> Hysteresis
    ensures { result ≡ limits_of body.now }
{
    Hysteresis {
        k: byte(body, 6),
        warn_margin: f64_at(body, 76),
        clear_ticks: byte(body, 7),
        clamp_streak_to_brake: byte(body, 8),
        max_clamps_per_episode: le16(body, 16),
        stop_confirm_ticks: byte(body, 9),
        v_stop_eps: f64_at(body, 68),
        brake_timeout_ticks: le16(body, 18),
        rearm_hold: le16(body, 20),
        max_rearms: byte(body, 11),
        escalate_after_hold_ticks: le16(body, 22),
        handoff_timeout_ticks: le32(body, 24),
        watchdog_ticks: byte(body, 10),
    }
}

#[tactic(auto, unfolding(crate::specs::Long::calibration_of))]
fn read_calibration(body: &[u8]) -> Calibration
    ensures { result ≡ calibration_of body.now }
{
    Calibration {
        mask: le32(body, 32),
        tau: f64_at(body, 84),
    }
}

// The body of SETTINGS.
// Which pattern a NaN has is the program's choice.
#[tactic(auto, unfolding(crate::specs::Long::settings_of))]
pub fn read_settings(body: &[u8]) -> Settings
    ensures { result ≡ settings_of body.now }
{
    Settings {
        mode: byte(body, 0),
        kind: byte(body, 1),
        clamp: byte(body, 2),
        rearm: byte(body, 3),
        dim: byte(body, 4),
        pos_dim: byte(body, 5),
        horizon: le16(body, 12),
        exec: le16(body, 14),
        dt: f64_at(body, 44),
        inv_dt: f64_at(body, 52),
        a_max: f64_at(body, 60),
        box_lo: floats_at(body, 92),
        box_hi: floats_at(body, 156),
        hyst: read_limits(body),
        window_mask: le64(body, 36),
        tier0_enabled: le32(body, 28),
        calib: read_calibration(body),
    }
}

#[tactic(auto, unfolding(crate::specs::Long::scores_in))]
fn read_scores(body: &[u8]) -> Scores
    ensures { result ≡ scores_in body.now }
{
    Scores {
        z: floats_at(body, 33),
        s: f64_at(body, 17),
        valid: le32(body, 25),
        fired: le32(body, 29),
    }
}

// The body of an OUTCOME.
// Which pattern a NaN has is the program's choice.
#[tactic(auto, unfolding(crate::specs::Long::outcome_of))]
// (One comes for each tick: as a call of its own it took a tick of the journal three per cent more.)
#[inline(always)]
pub fn read_outcome(body: &[u8]) -> Outcome
    ensures { result ≡ outcome_of body.now }
{
    Outcome {
        trips: le32(body, 0),
        clamped_dims: le32(body, 4),
        feasible: flag_set(byte(body, 8)),
        margin: f64_at(body, 9),
        scores: read_scores(body),
        policy: floats_at(body, 129),
        clamped: floats_at(body, 193),
    }
}

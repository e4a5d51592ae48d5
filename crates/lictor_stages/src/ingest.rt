// Stage 1: what a tick takes from the lists that it is lent.
ghost use Rattle.std.specs.Prelude.{◌≡◌};
ghost use Rattle.lictor_stages.specs.Ingest.{rates_row, still_row, velocity_of, ingest_of};

use lictor_core::chunk::MAX_POS;
use lictor_core::envelope::FuseConfig;
use lictor_core::fuse::Motion;
use lictor_core::rows::{first_by, taken};

// The live components by their steps from `last` to `here`, the others as they were.
fn moving(
    cfg: FuseConfig,
    here: [f64; MAX_POS],
    last: [f64; MAX_POS],
    old: [f64; MAX_POS],
) -> [f64; MAX_POS]
    ensures { result ≡ rates_row cfg here last old }
{
    first_by(old, cfg.pos_dim, |c| { (here[c] - last[c]) * cfg.inv_dt })
}

// The live components zero, the others as they were.
fn still(cfg: FuseConfig, old: [f64; MAX_POS]) -> [f64; MAX_POS]
    ensures { result ≡ still_row cfg old }
{
    first_by(old, cfg.pos_dim, |_| 0.0)
}

#[tactic(auto, unfolding(crate::specs::Ingest::velocity_of))]
fn velocity(
    cfg: FuseConfig,
    has_vel: bool,
    have: bool,
    here: [f64; MAX_POS],
    last: [f64; MAX_POS],
    old: [f64; MAX_POS],
    vel: &[f64],
) -> [f64; MAX_POS]
    ensures { result ≡ velocity_of cfg has_vel have here last old vel.now }
{
    if has_vel {
        taken(vel, old, cfg.pos_dim)
    } else if have {
        moving(cfg, here, last, old)
    } else {
        still(cfg, old)
    }
}

// The position and the velocity of a clean tick.
// Which pattern a NaN has is the program's choice.
#[tactic(auto, unfolding(crate::specs::Ingest::ingest_of))]
pub fn ingest(cfg: FuseConfig, motion: Motion, has_vel: bool, pos: &[f64], vel: &[f64]) -> Motion
    ensures { result ≡ ingest_of cfg motion has_vel pos.now vel.now }
{
    let prev_pos = motion.pos;
    let here = taken(pos, prev_pos, cfg.pos_dim);
    let moved = velocity(
        cfg,
        has_vel,
        motion.have_prev_pos,
        here,
        prev_pos,
        motion.vel,
        vel,
    );
    Motion {
        pos: here,
        prev_pos,
        vel: moved,
        have_prev_pos: true,
        ..motion
    }
}

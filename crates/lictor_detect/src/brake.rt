// The actions of a braking and of a holding fuse (brake.rs).
ghost use Rattle.std.specs.Prelude.{◌≡◌, ◌<◌};
ghost use Rattle.lictor_core.specs.Sizes.{max_pos};
ghost use Rattle.lictor_detect.specs.Brake.{boxed_component, scaled_component, brake_factor, boxed_action, scaled_action, brake_action, hold_action};

use lictor_core::chunk::{ActionKind, MAX_D, MAX_POS};
use lictor_core::envelope::FuseConfig;
use lictor_core::rows::{first_by, no_row};

// Keeps the denominator of the factor above zero.
const EPS: f64 = 1e-9;

// The row within the box, over the components that count.
#[tactic(auto, unfolding(crate::specs::Brake::boxed_component, crate::specs::Brake::component))]
fn boxed_action(cfg: FuseConfig, row: [f64; MAX_POS]) -> [f64; MAX_D]
    ensures { result ≡ boxed_action cfg row }
{
    first_by(
        no_row(),
        cfg.dim,
        |c|
            requires { c < max_pos }
            ensures { result ≡ boxed_component row cfg.box_lo cfg.box_hi cfg.pos_dim c }
        {
            let x = if c < cfg.pos_dim { row[c] } else { 0.0 };
            fmath::clamp(x, cfg.box_lo[c], cfg.box_hi[c])
        },
    )
}

fn brake_factor(cfg: FuseConfig, vel: [f64; MAX_POS]) -> f64
    ensures { result ≡ brake_factor cfg vel }
{
    let nv = fmath::norm(&vel, cfg.dim.min(MAX_D).min(cfg.pos_dim));
    fmath::max(0.0, 1.0 - cfg.a_max * cfg.dt / (nv + EPS))
}

// The velocity times k, over the components that count.
#[tactic(auto, unfolding(crate::specs::Brake::scaled_component))]
fn scaled_action(cfg: FuseConfig, vel: [f64; MAX_POS], k: f64) -> [f64; MAX_D]
    ensures { result ≡ scaled_action cfg vel k }
{
    first_by(
        no_row(),
        cfg.dim,
        |c|
            requires { c < max_pos }
            ensures { result ≡ scaled_component vel k cfg.pos_dim c }
        { if c < cfg.pos_dim { vel[c] * k } else { 0.0 } },
    )
}

// The action while braking: position kinds stay where they are, within the box; velocity kinds ramp
// down, the velocity times the factor. For EeDelta the factor is first multiplied by dt, so that the
// row is a step.
// All NaNs are one value in this promise: which pattern a NaN has is left open, and nothing else
// depends on it.
#[tactic(auto, unfolding(crate::specs::Brake::brake_action))]
pub fn brake_action(cfg: FuseConfig, pos: [f64; MAX_POS], vel: [f64; MAX_POS]) -> [f64; MAX_D]
    ensures { result ≡ brake_action cfg pos vel }
{
    match cfg.kind {
        ActionKind::EePosition | ActionKind::JointPosition | ActionKind::Other => boxed_action(
            cfg, pos,
        ),
        ActionKind::EeDelta => scaled_action(cfg, vel, brake_factor(cfg, vel) * cfg.dt),
        ActionKind::JointVelocity => scaled_action(cfg, vel, brake_factor(cfg, vel)),
    }
}

// The action while holding: position kinds the latched point, clamped again; velocity kinds zero.
// Which pattern a NaN has is the program's choice.
#[tactic(auto, unfolding(crate::specs::Brake::hold_action))]
pub fn hold_action(cfg: FuseConfig, hold: [f64; MAX_POS]) -> [f64; MAX_D]
    ensures { result ≡ hold_action cfg hold }
{
    match cfg.kind {
        ActionKind::EePosition | ActionKind::JointPosition | ActionKind::Other => boxed_action(
            cfg, hold,
        ),
        ActionKind::EeDelta | ActionKind::JointVelocity => no_row(),
    }
}

// Stage 7: the action that a tick gives out.
ghost use Rattle.std.specs.Prelude.{◌≡◌};
ghost use Rattle.lictor_detect.specs.Brake.{brake_action, hold_action};
ghost use Rattle.lictor_stages.specs.Act.{status_of, source_of, cut_row, passed_of, instead_of, enforced_of, by_mode, act_of};

use lictor_core::chunk::{MAX_D, MAX_POS};
use lictor_core::envelope::FuseConfig;
use lictor_core::fuse::Motion;
use lictor_core::outcome::Outcome;
use lictor_core::rows::{no_row, taken};
use lictor_core::state::{FuseMode, FuseState};
use lictor_core::verdict::{ActionSource, Status};
use lictor_detect::brake::{brake_action, hold_action};

// The action, where it comes from, and whether it is another than the policy's.
#[derive(Clone, Copy)]
pub struct Acted {
    pub action: [f64; MAX_D],
    pub src: ActionSource,
    pub substituted: bool,
    pub violation: bool,
}

#[tactic(auto, unfolding(crate::specs::Act::status_of))]
pub fn status_of(s: FuseState) -> Status
    ensures { result ≡ status_of s }
{
    match s {
        FuseState::Idle | FuseState::Armed => Status::Nominal,
        FuseState::Watching => Status::Watching,
        FuseState::Clamped => Status::Clamped,
        FuseState::Braking => Status::Braking,
        FuseState::Held => Status::Held,
        FuseState::Escalated => Status::Escalated,
        FuseState::Fault => Status::Fault,
        FuseState::Terminated => Status::Terminated,
    }
}

#[tactic(auto, unfolding(crate::specs::Act::source_of))]
pub fn source_of(s: FuseState) -> ActionSource
    ensures { result ≡ source_of s }
{
    match s {
        FuseState::Armed | FuseState::Watching => ActionSource::Policy,
        FuseState::Clamped => ActionSource::Clamped,
        FuseState::Braking => ActionSource::Brake,
        FuseState::Idle
        | FuseState::Held
        | FuseState::Escalated
        | FuseState::Fault
        | FuseState::Terminated => ActionSource::Hold,
    }
}

// The first dim components of an outcome's row.
#[tactic(auto, unfolding(crate::specs::Act::cut_row))]
fn cut(cfg: FuseConfig, row: [f64; MAX_D]) -> [f64; MAX_D]
    ensures { result ≡ cut_row cfg row }
{
    taken(&row, no_row(), cfg.dim)
}

// The policy's row is passed on, whatever the source would be.
#[tactic(auto, unfolding(crate::specs::Act::passed_of))]
fn passed(cfg: FuseConfig, would: ActionSource, policy: [f64; MAX_D]) -> Acted
    ensures { result ≡ passed_of cfg would policy }
{
    Acted {
        action: cut(cfg, policy),
        src: ActionSource::Policy,
        substituted: false,
        violation: would != ActionSource::Policy,
    }
}

// A row is given out in place of the policy's.
#[tactic(auto, unfolding(crate::specs::Act::instead_of))]
fn instead(src: ActionSource, row: [f64; MAX_D]) -> Acted
    ensures { result ≡ instead_of src row }
{
    Acted {
        action: row,
        src,
        substituted: true,
        violation: false,
    }
}

#[tactic(auto, unfolding(crate::specs::Act::enforced_of))]
fn enforced(
    cfg: FuseConfig,
    would: ActionSource,
    motion: Motion,
    hold: [f64; MAX_POS],
    policy: [f64; MAX_D],
    clamped: [f64; MAX_D],
) -> Acted
    ensures { result ≡ enforced_of cfg would motion hold policy clamped }
{
    match would {
        ActionSource::Policy => passed(cfg, would, policy),
        ActionSource::Clamped => instead(would, cut(cfg, clamped)),
        ActionSource::Brake => instead(would, brake_action(cfg, motion.pos, motion.vel)),
        ActionSource::Hold => instead(would, hold_action(cfg, hold)),
    }
}

#[tactic(auto, unfolding(crate::specs::Act::by_mode))]
fn by_mode(
    cfg: FuseConfig,
    would: ActionSource,
    motion: Motion,
    hold: [f64; MAX_POS],
    policy: [f64; MAX_D],
    clamped: [f64; MAX_D],
) -> Acted
    ensures { result ≡ by_mode cfg would motion hold policy clamped }
{
    match cfg.mode {
        FuseMode::Observe => passed(cfg, would, policy),
        FuseMode::Enforce => enforced(cfg, would, motion, hold, policy, clamped),
    }
}

// The action of a clean tick that ends in state s.
// Which pattern a NaN has is the program's choice.
#[tactic(auto, unfolding(crate::specs::Act::act_of))]
pub fn act(
    cfg: FuseConfig,
    s: FuseState,
    motion: Motion,
    hold: [f64; MAX_POS],
    out: Outcome,
) -> Acted
    ensures { result ≡ act_of cfg s motion hold out }
{
    by_mode(cfg, source_of(s), motion, hold, out.policy, out.clamped)
}

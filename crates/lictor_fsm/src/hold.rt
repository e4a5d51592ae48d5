// The hold (fsm.rs, `latch_hold`): the position of a stop, clamped to the box.
ghost use Rattle.std.specs.Prelude.{◌≡◌, min};
ghost use Rattle.lictor_core.specs.Sizes.{max_pos};
ghost use Rattle.lictor_table.specs.Helpers.{latched_of};

use fmath::clamp;
use lictor_core::chunk::MAX_POS;
use lictor_core::rows::first_by;

// `hold` with its first n components those of the position, each clamped to its box. Its two callers
// give it rows alone: a run state among its parameters would be written to memory on every tick
// (docs/PERFORMANCE.md).
pub(crate) fn latched(
    pos: [f64; MAX_POS],
    lo: [f64; MAX_POS],
    hi: [f64; MAX_POS],
    hold: [f64; MAX_POS],
    n: usize,
) -> [f64; MAX_POS]
    ensures { result ≡ latched_of pos lo hi hold (min n max_pos) }
{
    first_by(hold, n, |at| { clamp(pos[at], lo[at], hi[at]) })
}

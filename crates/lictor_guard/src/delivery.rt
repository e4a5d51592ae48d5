// What a tick delivers: whether a chunk, and whether its head fits the settings, the sequence and
// the time (fuse.rs, guard). It only reads. lictor_guard has the rest of the guard.
ghost use Rattle.std.specs.Prelude.{◌≡◌};
ghost use Rattle.lictor_guard.specs.Delivery.{delivered_of, sizes_bad, place_bad, head_bad, delivery_bad};

use lictor_core::chunk::ChunkHead;
use lictor_core::envelope::FuseConfig;
use lictor_core::fuse::{Clock, TickInput};
use lictor_core::state::Time;

// Whether the tick delivers a chunk.
#[tactic(auto, unfolding(crate::specs::Delivery::delivered_of))]
pub fn delivered(c: Option<ChunkHead>) -> bool
    ensures { result ≡ delivered_of c }
{
    c.is_some()
}

// What a chunk's head says of its sizes.
#[tactic(auto, unfolding(crate::specs::Delivery::sizes_bad))]
fn sizes_bad(cfg: FuseConfig, head: ChunkHead, values: usize) -> bool
    ensures { result ≡ sizes_bad cfg head values }
{
    head.dim as usize != cfg.dim
        || head.horizon as usize != cfg.horizon
        || head.exec_steps as usize != cfg.exec
        || values != head.horizon as usize * head.dim as usize
}

// Its place in the sequence and in time.
#[tactic(auto, unfolding(crate::specs::Delivery::place_bad))]
fn place_bad(head: ChunkHead, next: u32, t: Time, idx: u16) -> bool
    ensures { result ≡ place_bad head next t idx }
{
    head.seq != next || t < head.t_emit || idx as u32 != t - head.t_emit
}

#[tactic(auto, unfolding(crate::specs::Delivery::head_bad))]
fn head_bad(cfg: FuseConfig, next: u32, t: Time, idx: u16, values: usize, head: ChunkHead) -> bool
    ensures { result ≡ head_bad cfg next t idx values head }
{
    sizes_bad(cfg, head, values) || place_bad(head, next, t, idx)
}

// A bad head; without a chunk, that none was taken before.
#[tactic(auto, unfolding(crate::specs::Delivery::delivery_bad))]
pub fn delivery_bad(cfg: FuseConfig, clock: Clock, inp: TickInput, values: usize) -> bool
    ensures { result ≡ delivery_bad cfg clock inp values }
{
    match inp.chunk {
        None => !clock.filled,
        Some(head) => head_bad(cfg, clock.next_chunk_seq, inp.t, inp.idx, values, head),
    }
}

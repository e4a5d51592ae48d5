// Stage 0 of a tick: the bits that make it a fault tick (fuse.rs, guard). It only reads. What it
// asks of a chunk is in lictor_guard::delivery.
#![tactic(auto)]

pub mod delivery;

ghost use Rattle.std.specs.Prelude.{◌≡◌};
ghost use Rattle.lictor_guard.specs.Guard.{non_finite, lengths_of, shape_bad, clock_bad, schema_bad, bit_if, guard_of};

use crate::delivery::{delivered, delivery_bad};
use lictor_core::chunk::{MAX_AUX, MAX_EXT};
use lictor_core::envelope::FuseConfig;
use lictor_core::fuse::{Clock, Lists, TickInput};
use lictor_core::state::Time;
use lictor_core::verdict::{NONFINITE, SCHEMA, WATCHDOG};

// The lengths of the five lists.
#[derive(Clone, Copy)]
pub struct Lengths {
    pub pos: usize,
    pub vel: usize,
    pub aux: usize,
    pub ext: usize,
    pub chunk: usize,
}

#[tactic(auto, unfolding(crate::specs::Guard::lengths_of))]
fn measure(lists: Lists) -> Lengths
    ensures { result ≡ lengths_of lists.entry.pos.now lists.entry.vel.now lists.entry.aux.now lists.entry.ext.now lists.entry.chunk.now }
{
    Lengths {
        pos: lists.pos.len(),
        vel: lists.vel.len(),
        aux: lists.aux.len(),
        ext: lists.ext.len(),
        chunk: lists.chunk.len(),
    }
}

// A list that is not supplied is not looked at.
#[tactic(auto, unfolding(crate::specs::Guard::non_finite))]
fn nonfinite(has_vel: bool, has_chunk: bool, lists: Lists) -> bool
    ensures { result ≡ non_finite has_vel has_chunk lists.entry.pos.now lists.entry.vel.now lists.entry.aux.now lists.entry.ext.now lists.entry.chunk.now }
{
    fmath::some_bad(lists.pos)
        || has_vel && fmath::some_bad(lists.vel)
        || fmath::some_bad(lists.aux)
        || fmath::some_bad(lists.ext)
        || has_chunk && fmath::some_bad(lists.chunk)
}

// The host's flag, the index and the lengths.
#[tactic(auto, unfolding(crate::specs::Guard::shape_bad))]
fn shape_bad(cfg: FuseConfig, inp: TickInput, lengths: Lengths) -> bool
    ensures { result ≡ shape_bad cfg inp lengths }
{
    inp.schema_fault
        || cfg.horizon <= inp.idx as usize
        || lengths.pos != cfg.pos_dim
        || MAX_AUX < lengths.aux
        || MAX_EXT < lengths.ext
        || inp.has_vel && lengths.vel != cfg.pos_dim
}

// The clock: its sum is wide enough never to wrap.
#[tactic(auto, unfolding(crate::specs::Guard::clock_bad))]
fn clock_bad(seq: u32, last_t: Time, t: Time, missed: u8) -> bool
    ensures { result ≡ clock_bad seq last_t t missed }
{
    if seq == 0 {
        return t != 0;
    }
    last_t as u64 + 1 + missed as u64 != t as u64
}

#[tactic(auto, unfolding(crate::specs::Guard::schema_bad))]
fn schema_bad(cfg: FuseConfig, clock: Clock, inp: TickInput, lengths: Lengths) -> bool
    ensures { result ≡ schema_bad cfg clock inp lengths }
{
    shape_bad(cfg, inp, lengths)
        || delivery_bad(cfg, clock, inp, lengths.chunk)
        || clock_bad(clock.seq, clock.last_t, inp.t, inp.missed_ticks)
}

#[tactic(auto, unfolding(crate::specs::Guard::bit_if))]
fn bit_if(t: bool, bit: u32) -> u32
    ensures { result ≡ bit_if t bit }
{
    if t { bit } else { 0 }
}

// All bits that apply.
#[tactic(auto, unfolding(crate::specs::Guard::guard_of))]
pub fn guard(cfg: FuseConfig, clock: Clock, inp: TickInput, lists: Lists) -> u32
    ensures { result ≡ guard_of cfg clock inp lists.entry.pos.now lists.entry.vel.now lists.entry.aux.now lists.entry.ext.now lists.entry.chunk.now }
{
    let odd = nonfinite(inp.has_vel, delivered(inp.chunk), lists);
    let wrong = schema_bad(cfg, clock, inp, measure(lists));
    bit_if(odd, NONFINITE)
        | bit_if(wrong, SCHEMA)
        | bit_if(cfg.hyst.watchdog_ticks < inp.missed_ticks, WATCHDOG)
}

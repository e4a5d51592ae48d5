// The rules by which the fields of a tally go (tally.rs): a count that moves or stays, a mark that
// is set once, a maximum.
ghost use Rattle.std.specs.Prelude.{◌≡◌, ◌&&◌, ◌<◌, ◌≤◌};
ghost use Rattle.lictor_core.specs.Codes.{is_stop, is_stop_action};
ghost use Rattle.lictor_tally.specs.Counts.{count, is_nominal, bit_of, count_bits, first, first_reason, most_live};

use lictor_core::reason::ReasonCode;
use lictor_core::scores::NFEAT;
use lictor_core::state::{FuseState, Time, is_stop};
use lictor_core::verdict::{ActionSource, is_stop_action};
use std::array;

// ---- counts

#[tactic(auto, unfolding(crate::specs::Counts::count))]
pub fn count_if(moves: bool, n: u32) -> u32
    ensures { result ≡ count moves n }
{
    if moves { n.saturating_add(1) } else { n }
}

pub fn is_nominal(s: FuseState) -> bool
    ensures { result ≡ is_nominal s }
{
    s == FuseState::Idle || s == FuseState::Armed
}

// A tick stops the arm where it ends in a stop state and its action is the brake or the hold one.
pub fn stops_arm(s: FuseState, src: ActionSource) -> bool
    ensures { result ≡ (is_stop s && is_stop_action src) }
{
    is_stop(s) && is_stop_action(src)
}

fn bit_of(mask: u32, b: usize) -> bool
    requires { b < 32 }
    ensures { result ≡ bit_of mask b }
{
    mask >> b as u32 & 1 != 0
}

// A count for each bit of a mask. Most masks are empty, and then no place is looked at.
// (A `for`, since a closure in a function with a parameter would need its clauses written out.)
pub fn count_bits<const N: usize>(mut counts: [u32; N], mask: u32) -> [u32; N]
    requires { N ≤ 32 }
    ensures { result ≡ count_bits mask counts.entry }
{
    if mask != 0 {
        for b in 0..N {
            counts[b] = count_if(bit_of(mask, b), counts[b]);
        }
    }
    counts
}

// ---- marks

#[tactic(auto, unfolding(crate::specs::Counts::first))]
pub fn first(happens: bool, t: Time, m: Option<Time>) -> Option<Time>
    ensures { result ≡ first happens t m }
{
    if happens { m.or(Some(t)) } else { m }
}

// The reason that is written with the mark m: unlike in `first`, what is asked and what is kept are
// two values, so the two stay apart.
#[tactic(auto, unfolding(crate::specs::Counts::first_reason))]
pub fn first_reason(
    happens: bool,
    m: Option<Time>,
    w: ReasonCode,
    old: Option<ReasonCode>,
) -> Option<ReasonCode>
    ensures { result ≡ first_reason happens m w old }
{
    if happens && m.is_none() { Some(w) } else { old }
}

// ---- maxima

// The larger of the two in each place, of the channels that are live. One that is not has a NaN in
// the place of its score, which the larger of two ignores: without a branch, so that the twelve are
// compared in pairs. With none live, no place is looked at.
// Which pattern a NaN has is the program's choice.
pub fn most_live(most: [f64; NFEAT], z: [f64; NFEAT], live: u32) -> [f64; NFEAT]
    ensures { result ≡ most_live live z most }
{
    if live == 0 {
        return most;
    }
    array::from_fn(|j| fmath::max(most[j], if bit_of(live, j) { z[j] } else { fmath::nan() }))
}

// Two callers of the lent tick, as an example and no part of the product:
// it can be used and proved like any function by value.
// `once` lends a local run state for one tick, and gives what the tick by value gives;
// `three` calls `once` three times, and its proof needs nothing more.
#![tactic(auto)]

ghost use Rattle.std.specs.Prelude.{◌≡◌};
ghost use Rattle.lictor_fuse.specs.Tick.{tick_of};
ghost use Rattle.host_example.specs.Example.{three_of};

use lictor_core::envelope::Settings;
use lictor_core::fuse::{FuseRt, Lists, TickInput};
use lictor_core::outcome::Outcome;
use lictor_fuse::Ticked;

// One tick by value, through the lent one: the two agree. `lent::lending` with a closure over the
// call would be longer than the call.
// Which pattern a NaN has is the program's choice.
pub fn once(s: Settings, rt: FuseRt, inp: TickInput, out: Outcome, lists: Lists) -> Ticked
    ensures { result ≡ tick_of s rt inp out lists.entry.pos.now lists.entry.vel.now lists.entry.aux.now lists.entry.ext.now lists.entry.chunk.now }
{
    let mut lent = rt;
    let a = host::tick(&mut lent, s, inp, out, lists);
    Ticked {
        check: a.check,
        rt: lent,
        verdict: a.verdict,
    }
}

// What comes to three ticks in a row.
#[derive(Clone, Copy)]
pub struct Inputs {
    pub first: TickInput,
    pub second: TickInput,
    pub third: TickInput,
}

// Three ticks in a row, each on the run state that the one before left.
// Which pattern a NaN has is the program's choice.
#[tactic(auto, unfolding(crate::specs::Example::three_of))]
pub fn three(rt: FuseRt, s: Settings, inputs: Inputs, out: Outcome, lists: Lists) -> Ticked
    ensures { result ≡ three_of s rt inputs out lists.entry.pos.now lists.entry.vel.now lists.entry.aux.now lists.entry.ext.now lists.entry.chunk.now }
{
    let one = once(s, rt, inputs.first, out, lists);
    let two = once(s, one.rt, inputs.second, out, lists);
    once(s, two.rt, inputs.third, out, lists)
}

// A tick of a journal on the fuse, with all that was collected for it.
ghost use Rattle.std.specs.Prelude.{◌≡◌, ◌<◌, length};
ghost use Rattle.journal_refusals.specs.Causes.{capacities, pos_list};
ghost use Rattle.journal_reader.specs.State.{values_of};
ghost use Rattle.journal_reader.specs.Reading.{brought_of};
ghost use Rattle.journal.specs.Events.{reported_of};

use journal_reader::waiting::{PLACES, Reader, base};
use journal_refusals::{AUX, CHUNK, EXT, POS, Seen, VEL, capacity};
use lictor_core::envelope::FuseConfig;
use lictor_core::fuse::{FuseRt, Lists, TickInput};
use lictor_core::verdict::SafetyVerdict;
use lictor_fuse::decide::decide_by;

// The fuse: its configuration and its run state.
#[derive(Clone, Copy)]
pub struct Run {
    pub config: FuseConfig,
    pub rt: FuseRt,
}

// What a tick gives, besides what came for it.
#[derive(Clone, Copy)]
pub struct Reported {
    // the bits that the guard found
    pub guard: u32,
    pub verdict: SafetyVerdict,
    // the fuse after the tick
    pub run: Run,
}

// The values of a list, by its number, as `values_of` has it.
fn values(seen: Seen, lists: &[f64; PLACES], c: usize) -> &[f64]
    requires { c < length capacities }
    ensures { result.now ≡ values_of seen lists.now c }
{
    let from = base(c);
    let end = from + seen.counts[c].min(capacity(c));
    &lists[from..end]
}

// The positions that were collected.
pub fn lent_positions(seen: Seen, lists: &[f64; PLACES]) -> &[f64]
    ensures { result.now ≡ values_of seen lists.now pos_list }
{
    values(seen, lists, POS)
}

impl Run {
    // The tick that comes next, on all that was collected.
    // Which pattern a NaN has is the program's choice.
    #[tactic(auto, unfolding(crate::specs::Events::reported_of, crate::specs::Events::report_of, crate::specs::Events::ticked_of, crate::specs::Events::decided_of, lictor_fuse::specs::Decide::decide_of, journal_reader::specs::Reading::brought_of))]
    pub fn tick(self, rd: Reader, lists: &[f64; PLACES], inp: TickInput) -> Reported
        ensures { result ≡ reported_of self (brought_of (record { reader = rd; lists = lists.now }) inp) }
    {
        let seen = rd.waiting.seen;
        let pos = values(seen, lists, POS);
        let vel = values(seen, lists, VEL);
        let lent = Lists {
            pos,
            vel,
            aux: values(seen, lists, AUX),
            ext: values(seen, lists, EXT),
            chunk: values(seen, lists, CHUNK),
        };
        let guard = lictor_guard::guard(self.config, self.rt.clock, inp, lent);
        let decided = decide_by(self.config, self.rt, inp, rd.outcome, guard, pos, vel);
        let run = Run {
            rt: decided.rt,
            ..self
        };
        Reported {
            guard,
            verdict: decided.verdict,
            run,
        }
    }
}

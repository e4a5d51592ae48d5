// What waits for a tick: the records that were collected since the last tick or reset;
// and what came once and for all.
ghost use Rattle.std.specs.Prelude.{◌≡◌, ◌<◌, length, get_or};
ghost use Rattle.journal_refusals.specs.Causes.{capacities, count_of};
ghost use Rattle.journal_reader.specs.State.{bases, ack_waits, head_waits, value_waits, outcome_waits, settings_came, width_came, emptied as State·emptied, start_reader, input_of as State·input_of};

use journal_records::TickNumbers;
use journal_records::long::read_outcome;
use journal_refusals::{AUX, CHUNK_ROOM, EXT, LIST_ROOM, LISTS, POS, Seen, VEL};
use lictor_core::ack::{AckDecision, VerifiedAck};
use lictor_core::chunk::ChunkHead;
use lictor_core::fuse::TickInput;
use lictor_core::outcome::Outcome;

// What waits for a tick, but for the outcome: small, since it goes by value with each record.
// Whether an acknowledgement or a head waits is in `seen`, by which the table of refusals goes
// (journal_refusals, specs/Causes): an Option here would say it a second time.
#[derive(Clone, Copy)]
pub struct Waiting {
    pub seen: Seen,
    // the last that came; it waits where `seen` says so
    pub ack: VerifiedAck,
    pub head: ChunkHead,
}

// All that waits, but for the values of the lists, which are in lent memory.
#[derive(Clone, Copy)]
pub struct Reader {
    pub waiting: Waiting,
    pub outcome: Outcome,
}

// Where the lists begin in the lent memory, one after the other, and how many places they have: one
// block of fixed memory, so that a value is one store.
const POS_BASE: usize = CHUNK_ROOM;

const VEL_BASE: usize = POS_BASE + LIST_ROOM;

const AUX_BASE: usize = VEL_BASE + LIST_ROOM;

const EXT_BASE: usize = AUX_BASE + LIST_ROOM;

pub const PLACES: usize = EXT_BASE + LIST_ROOM;

// Where a list begins, 0 for the chunk's and for one that is not listed, as the clause has it of any
// number.
pub fn base(c: usize) -> usize
    ensures { result ≡ get_or bases c 0 }
{
    match c {
        POS => POS_BASE,
        VEL => VEL_BASE,
        AUX => AUX_BASE,
        EXT => EXT_BASE,
        _ => 0,
    }
}

// Each of these sets another field, and has a definition of its own: a shared one would take the field
// as a closure.
impl Waiting {
    #[tactic(auto, unfolding(crate::specs::State::ack_waits))]
    pub fn with_ack(self, a: VerifiedAck) -> Self
        ensures { result ≡ ack_waits self a }
    {
        let seen = Seen {
            ack: true,
            ..self.seen
        };
        Waiting {
            seen,
            ack: a,
            ..self
        }
    }

    #[tactic(auto, unfolding(crate::specs::State::head_waits))]
    pub fn with_head(self, h: ChunkHead) -> Self
        ensures { result ≡ head_waits self h }
    {
        let seen = Seen {
            head: true,
            ..self.seen
        };
        Waiting {
            seen,
            head: h,
            ..self
        }
    }

    // With a value more in a list that has room.
    #[tactic(auto, unfolding(crate::specs::State::value_waits))]
    pub(crate) fn with_value(self, c: u8) -> Self
        requires { (c < length capacities) × (count_of self.seen c < get_or capacities c 0) }
        ensures { result ≡ value_waits self c }
    {
        let mut waiting = self;
        waiting.seen.counts[c as usize] += 1;
        waiting
    }

    #[tactic(auto, unfolding(crate::specs::State::input_of))]
    pub fn input_of(self, n: TickNumbers) -> TickInput
        ensures { result ≡ State·input_of self n }
    {
        TickInput {
            t: n.t,
            idx: n.idx,
            missed_ticks: n.missed_ticks,
            schema_fault: n.schema_fault,
            has_vel: n.has_vel,
            chunk: self.seen.head.then_some(self.head),
            ack: self.seen.ack.then_some(self.ack),
        }
    }
}

impl Reader {
    // The reader before the first byte.
    // Which pattern a NaN has is the program's choice.
    #[tactic(auto, unfolding(crate::specs::State::start_reader))]
    pub fn start() -> Self
        ensures { result ≡ start_reader }
    {
        let seen = Seen {
            settings: false,
            width: false,
            underway: false,
            ack: false,
            head: false,
            outcome: false,
            counts: [0; LISTS],
        };
        let ack = VerifiedAck {
            decision: AckDecision::Resume,
            operator_slot: 0,
            nonce: 0,
            handoff_seq: 0,
        };
        let head = ChunkHead {
            seq: 0,
            t_emit: 0,
            horizon: 0,
            dim: 0,
            exec_steps: 0,
        };
        Reader {
            waiting: Waiting { seen, ack, head },
            outcome: read_outcome(b""),
        }
    }

    // Which pattern a NaN has is the program's choice.
    #[tactic(auto, unfolding(crate::specs::State::outcome_waits))]
    pub fn with_outcome(self, o: Outcome) -> Self
        ensures { result ≡ outcome_waits self o }
    {
        let mut waiting = self.waiting;
        waiting.seen.outcome = true;
        Reader {
            waiting,
            outcome: o,
        }
    }

    // The reader after settings.
    // Which pattern a NaN has is the program's choice.
    #[tactic(auto, unfolding(crate::specs::State::settings_came))]
    pub fn begun(self) -> Self
        ensures { result ≡ settings_came self }
    {
        let mut reader = self;
        reader.waiting.seen.settings = true;
        reader
    }

    // The reader after a width.
    // Which pattern a NaN has is the program's choice.
    #[tactic(auto, unfolding(crate::specs::State::width_came))]
    pub fn with_width(self) -> Self
        ensures { result ≡ width_came self }
    {
        let mut reader = self;
        reader.waiting.seen.width = true;
        reader
    }

    // The reader after a reset or a tick: the journal is under way, and nothing waits.
    // Which pattern a NaN has is the program's choice.
    #[tactic(auto, unfolding(crate::specs::State::emptied))]
    pub fn emptied(self) -> Self
        ensures { result ≡ State·emptied self }
    {
        let mut seen = self.waiting.seen;
        seen.underway = true;
        seen.ack = false;
        seen.head = false;
        seen.outcome = false;
        seen.counts = [0; LISTS];
        let waiting = Waiting {
            seen,
            ..self.waiting
        };
        Reader { waiting, ..self }
    }
}

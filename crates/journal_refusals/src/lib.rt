// Whether a record of a journal is refused, and why: the causes in the order of the table.
// Those about its frame are found by journal_frames. The others go by its kind, its body and what
// has been seen before it, never by the run state.
#![tactic(auto)]

ghost use Rattle.std.specs.Prelude.{cond, ◌≡◌, get_or};
ghost use Rattle.journal_refusals.specs.declared.Seen.{Seen};
ghost use Rattle.journal_records.specs.Little.{byte_at};
ghost use Rattle.journal_records.specs.Kinds.{settings_kind, ack_kind, value_kind, outcome_kind, tick_kind, width_kind};
ghost use Rattle.journal_refusals.specs.Causes.{capacities, before_settings, not_below, again as Causes·again, bad_width, list_full, not_ready};
ghost use Rattle.journal_refusals.specs.Table.{number_of, refusal_for, whole_of, contents_of};

use journal_records::Kind;
use journal_records::little::{byte, f64_at};
use journal_records::long::read_settings;
use lictor_core::ack::AckDecision;
use lictor_settings::SettingsFault;

// The lists of values, by their codes. They are places in `counts`, and `capacity` and the reader's
// `base` answer for every number: an enum would be turned into a number at each use.
pub const CHUNK: usize = 0;

pub const POS: usize = 1;

pub const VEL: usize = 2;

pub const AUX: usize = 3;

pub const EXT: usize = 4;

pub const LISTS: usize = 5;

// How many cases a flag has.
const FLAGS: u8 = 2;

// How many values the chunk's list can hold, and each of the others.
pub const CHUNK_ROOM: usize = 512;

pub const LIST_ROOM: usize = 16;

// What has been seen of a journal: what came of it once and for all, and what waits for a tick. The
// causes go by these flags and counts (specs/Causes), and by none of the values, which the reader has.
#[derive(Clone, Copy)]
pub struct Seen {
    pub settings: bool,
    pub width: bool,
    // a reset or a tick
    pub underway: bool,
    pub ack: bool,
    pub head: bool,
    pub outcome: bool,
    // how many values of each list: chunk, pos, vel, aux, ext
    pub counts: [usize; LISTS],
}

// Why a record is refused, in the order in which the causes are looked for, by the paper's numbers.
#[derive(Clone, Copy, PartialEq, Eq)]
pub enum Refusal {
    UnknownKind = 5,
    CutBody = 6,
    BeforeSettings = 8,
    Again = 9,
    BadCode = 1,
    BadSize = 2,
    BadFloat = 3,
    BoxCrossed = 4,
    ListFull = 7,
    NotReady = 10,
}

impl From<SettingsFault> for Refusal {
    ghost from_gives = { λ f r. r ≡ refusal_for f };

    fn from(fault: SettingsFault) -> Self {
        match fault {
            SettingsFault::BadCode => Refusal::BadCode,
            SettingsFault::BadSize => Refusal::BadSize,
            SettingsFault::NotFinite => Refusal::BadFloat,
            SettingsFault::BoxCrossed => Refusal::BoxCrossed,
        }
    }
}

// How many values a list can hold, 0 for one that is not listed, as the clause has it of any number.
pub fn capacity(c: usize) -> usize
    ensures { result ≡ get_or capacities c 0 }
{
    match c {
        CHUNK => CHUNK_ROOM,
        POS | VEL | AUX | EXT => LIST_ROOM,
        _ => 0,
    }
}

// The refusal's number.
pub fn number(r: Refusal) -> u8
    ensures { result ≡ number_of r }
{
    r as u8
}

// Refuses for a reason, where its cause is there.
fn refuse_if(cause: bool, r: Refusal) -> Result<(), Refusal>
    ensures { result ≡ cond cause (Err r) (Ok tt) }
{
    if cause { Err(r) } else { Ok(()) }
}

#[tactic(auto, using(crate::proofs::Again::early_as))]
fn is_early(seen: Seen, k: u8, b: &[u8]) -> bool
    ensures { result ≡ before_settings seen k b.now }
{
    match Kind::try_from(k) {
        Ok(Kind::Settings) => false,
        _ => !seen.settings,
    }
}

// Of a width: a second one, or one that comes after a reset or a tick.
#[tactic(auto, using(crate::proofs::Again::again_as))]
fn is_again(seen: Seen, k: u8, b: &[u8]) -> bool
    ensures { result ≡ Causes·again seen k b.now }
{
    match Kind::try_from(k) {
        Ok(Kind::Settings) => seen.settings,
        Ok(Kind::Ack) => seen.ack,
        Ok(Kind::Head) => seen.head,
        Ok(Kind::Outcome) => seen.outcome,
        Ok(Kind::Width) => seen.width || seen.underway,
        Ok(Kind::Reset | Kind::Value | Kind::Tick) | Err(_) => false,
    }
}

#[tactic(auto, using(crate::proofs::Contents::contents_settings))]
fn judge_settings(b: &[u8]) -> Result<(), Refusal>
    ensures { (seen : Seen) → result ≡ contents_of seen settings_kind b.now }
{
    lictor_settings::check(read_settings(b))?;
    Ok(())
}

// A code or flag of so many cases, at a place of the body, that is not listed.
fn is_bad(b: &[u8], at: usize, cases: u8) -> bool
    ensures { result ≡ not_below cases (byte_at b.now at) }
{
    byte(b, at) >= cases
}

#[tactic(auto, using(crate::proofs::Contents::contents_ack))]
fn judge_ack(b: &[u8]) -> Result<(), Refusal>
    ensures { (seen : Seen) → result ≡ contents_of seen ack_kind b.now }
{
    refuse_if(AckDecision::try_from(byte(b, 0)).is_err(), Refusal::BadCode)
}

// A list that is not listed has no room.
#[tactic(auto, unfolding(crate::specs::Causes::list_full))]
fn is_full(seen: Seen, b: &[u8]) -> bool
    ensures { result ≡ list_full seen value_kind b.now }
{
    let list = byte(b, 0) as usize;
    seen.counts
        .get(list)
        .is_none_or(|count| capacity(list) <= *count)
}

#[tactic(auto, using(crate::proofs::Contents::contents_value))]
fn judge_value(seen: Seen, b: &[u8]) -> Result<(), Refusal>
    ensures { result ≡ contents_of seen value_kind b.now }
{
    refuse_if(is_bad(b, 0, LISTS as u8), Refusal::BadCode)?;
    refuse_if(is_full(seen, b), Refusal::ListFull)
}

#[tactic(auto, using(crate::proofs::Contents::contents_outcome))]
fn judge_outcome(b: &[u8]) -> Result<(), Refusal>
    ensures { (seen : Seen) → result ≡ contents_of seen outcome_kind b.now }
{
    refuse_if(is_bad(b, 8, FLAGS), Refusal::BadCode)
}

// No outcome, values of a chunk with no head, or velocities with their flag off.
#[tactic(auto, unfolding(crate::specs::Causes::not_ready))]
fn is_unready(seen: Seen, b: &[u8]) -> bool
    ensures { result ≡ not_ready seen tick_kind b.now }
{
    !seen.outcome || 0 < seen.counts[CHUNK] && !seen.head || 0 < seen.counts[VEL] && byte(b, 8) == 0
}

#[tactic(auto, using(crate::proofs::Contents::contents_tick))]
fn judge_tick(seen: Seen, b: &[u8]) -> Result<(), Refusal>
    ensures { result ≡ contents_of seen tick_kind b.now }
{
    refuse_if(is_bad(b, 7, FLAGS) || is_bad(b, 8, FLAGS), Refusal::BadCode)?;
    refuse_if(is_unready(seen, b), Refusal::NotReady)
}

// A width that is not finite or below zero; -0 is neither.
#[tactic(auto, unfolding(crate::specs::Causes::bad_width))]
fn is_bad_width(w: f64) -> bool
    ensures { result ≡ bad_width w }
{
    !fmath::is_finite(w) || w < 0.0
}

#[tactic(auto, using(crate::proofs::Contents::contents_width))]
fn judge_width(b: &[u8]) -> Result<(), Refusal>
    ensures { (seen : Seen) → result ≡ contents_of seen width_kind b.now }
{
    refuse_if(is_bad_width(f64_at(b, 0)), Refusal::BadFloat)
}

// A record of a listed kind, whole, and in its order.
#[tactic(auto, using(crate::proofs::Contents::contents_as))]
fn judge_contents(seen: Seen, k: u8, b: &[u8]) -> Result<(), Refusal>
    ensures { result ≡ contents_of seen k b.now }
{
    match Kind::try_from(k) {
        Ok(Kind::Settings) => judge_settings(b),
        Ok(Kind::Ack) => judge_ack(b),
        Ok(Kind::Value) => judge_value(seen, b),
        Ok(Kind::Outcome) => judge_outcome(b),
        Ok(Kind::Tick) => judge_tick(seen, b),
        Ok(Kind::Width) => judge_width(b),
        Ok(Kind::Reset | Kind::Head) | Err(_) => Ok(()),
    }
}

// What becomes of a record of a listed kind that is there whole: the frame decides before. The kind is
// its byte, since `whole_of` speaks of every number.
#[tactic(auto, using(crate::proofs::Contents::whole_as))]
pub fn judge(seen: Seen, k: u8, b: &[u8]) -> Result<(), Refusal>
    ensures { result ≡ whole_of seen k b.now }
{
    refuse_if(is_early(seen, k, b), Refusal::BeforeSettings)?;
    refuse_if(is_again(seen, k, b), Refusal::Again)?;
    judge_contents(seen, k, b)
}

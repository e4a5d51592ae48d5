// The records of a journal by kind: how long the bodies are, and what they hold.
// Each reader takes the body alone, a part of the journal's bytes.
#![tactic(auto)]

pub mod little; // little-endian numbers
pub mod long; // the two long records, settings and outcome

ghost use Rattle.std.specs.Prelude.{◌≡◌};
ghost use Rattle.journal_records.specs.Kinds.{journal_kinds, kind_of};
ghost use Rattle.journal_records.specs.Body.{ack_of, head_of, tick_numbers, decode_of};

use crate::little::{byte, f64_at, flag_set, le16, le32, le64};
use lictor_core::ack::VerifiedAck;
use lictor_core::chunk::ChunkHead;
use lictor_core::code::Unlisted;
use lictor_core::state::Time;

// The numbers of a tick record. Whether there are velocities is a byte of its body: the list itself
// comes in other records.
#[derive(Clone, Copy)]
pub struct TickNumbers {
    pub t: Time,
    pub idx: u16,
    pub missed_ticks: u8,
    pub schema_fault: bool,
    pub has_vel: bool,
}

// A decoded record. Settings and outcome hold arrays, so `long` reads them apart. A value's list is a
// number, its place in the counts of what has been seen.
#[derive(Clone, Copy)]
pub enum Record {
    Settings,
    Reset,
    Ack(VerifiedAck),
    Head(ChunkHead),
    Value(u8, f64),
    Outcome,
    Tick(TickNumbers),
    Width(f64),
}

// The kinds, numbered from 1 on.
#[derive(Clone, Copy, PartialEq, Eq)]
pub enum Kind {
    Settings = 1,
    Reset,
    Ack,
    Head,
    Value,
    Outcome,
    Tick,
    Width,
}

#[tactic(auto, unfolding(crate::specs::Kinds::kind_of))]
impl TryFrom<u8> for Kind {
    type Error = Unlisted;

    ghost try_from_gives = { λ k r. r ≡ kind_of k };

    fn try_from(k: u8) -> Result<Kind, Unlisted> {
        match k {
            1 => Ok(Kind::Settings),
            2 => Ok(Kind::Reset),
            3 => Ok(Kind::Ack),
            4 => Ok(Kind::Head),
            5 => Ok(Kind::Value),
            6 => Ok(Kind::Outcome),
            7 => Ok(Kind::Tick),
            8 => Ok(Kind::Width),
            _ => Err(Unlisted(k)),
        }
    }
}

// How many there are.
pub const KINDS: usize = 8;

// The kinds of a journal, as the framing takes them: how long the bodies of kinds 1 to 8 are.
pub fn journal_kinds() -> [u16; KINDS]
    ensures { result ≡ journal_kinds }
{
    [220, 0, 14, 14, 9, 257, 9, 8]
}

// The body of an ACK.
#[tactic(auto, unfolding(crate::specs::Body::ack_of))]
fn read_ack(b: &[u8]) -> VerifiedAck
    ensures { result ≡ ack_of b.now }
{
    let decision = lictor_core::ack::decision_of(byte(b, 0));
    VerifiedAck {
        decision,
        operator_slot: byte(b, 1),
        nonce: le64(b, 2),
        handoff_seq: le32(b, 10),
    }
}

// The body of a HEAD.
#[tactic(auto, unfolding(crate::specs::Body::head_of))]
fn read_head(b: &[u8]) -> ChunkHead
    ensures { result ≡ head_of b.now }
{
    ChunkHead {
        seq: le32(b, 0),
        t_emit: le32(b, 4),
        horizon: le16(b, 8),
        dim: le16(b, 10),
        exec_steps: le16(b, 12),
    }
}

// The body of a TICK.
#[tactic(auto, unfolding(crate::specs::Body::tick_numbers))]
fn read_tick(b: &[u8]) -> TickNumbers
    ensures { result ≡ tick_numbers b.now }
{
    TickNumbers {
        t: le32(b, 0),
        idx: le16(b, 4),
        missed_ticks: byte(b, 6),
        schema_fault: flag_set(byte(b, 7)),
        has_vel: flag_set(byte(b, 8)),
    }
}

// The record of a kind, from its body.
// Which pattern a NaN has is the program's choice.
#[tactic(auto, using(crate::proofs::Decoded::decoded_as))]
pub fn decode(k: u8, b: &[u8]) -> Record
    ensures { result ≡ decode_of k b.now }
{
    // Any number is taken, as `decode_of` has it: a kind that is not listed is refused before, and is
    // taken for a tick here.
    match Kind::try_from(k).unwrap_or(Kind::Tick) {
        Kind::Settings => Record::Settings,
        Kind::Reset => Record::Reset,
        Kind::Ack => Record::Ack(read_ack(b)),
        Kind::Head => Record::Head(read_head(b)),
        Kind::Value => Record::Value(byte(b, 0), f64_at(b, 1)),
        Kind::Outcome => Record::Outcome,
        Kind::Width => Record::Width(f64_at(b, 0)),
        Kind::Tick => Record::Tick(read_tick(b)),
    }
}

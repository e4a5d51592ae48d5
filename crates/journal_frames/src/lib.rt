// The framing of a journal: one byte of kind, then a body whose length the kind fixes.
// It knows which kinds there are and how long their bodies are, and nothing of what these hold.
#![tactic(auto)]

ghost use Rattle.std.specs.Prelude.{◌≡◌, drop};
ghost use Rattle.journal_frames.specs.Frames.{is_known, body_len, frame_of};

// What is at the front of some bytes. Three cases, of which neither of the first two is an error
// here: a reader waits for more bytes, and refuses a kind that is not listed (specs/Frames,
// `on_frame`).
#[derive(Clone, Copy)]
pub enum Frame {
    // Nothing, or a record that is not there whole.
    Waits,
    // A kind that is not listed.
    Unknown,
    // A whole record: its kind, and the length of its body.
    Whole(u8, usize),
}

// Whether a kind is listed. Which kinds there are is lent: the lengths of kinds 1, 2 and so on. A
// kind is a number here, since a table may list any (`journal_ends` holds of each).
#[tactic(auto, unfolding(crate::specs::Frames::is_known))]
pub fn is_known(kinds: &[u16], k: u8) -> bool
    ensures { result ≡ is_known kinds.now k }
{
    let n = k as usize;
    0 < n && n <= kinds.len()
}

// The length of a body of this kind, 0 for a kind that is not listed.
#[tactic(auto, unfolding(crate::specs::Frames::body_len))]
pub fn body_len(kinds: &[u16], k: u8) -> usize
    ensures { result ≡ body_len kinds.now k }
{
    match (k as usize).checked_sub(1) {
        Some(i) => kinds.get(i).map_or(0, |n| *n as usize),
        None => 0,
    }
}

// What is at a place. The place is beside the slice: the reader goes on in one slice, and a part of it
// would be cut for each record.
// The length of a record is worked out here and nowhere else.
pub fn frame_at(kinds: &[u16], s: &[u8], at: usize) -> Frame
    ensures { result ≡ frame_of kinds.now (drop at s.now) }
{
    match s.get(at..).unwrap_or(&[]) {
        [] => Frame::Waits,
        [kind, rest @ ..] => {
            if !is_known(kinds, *kind) {
                return Frame::Unknown;
            }
            let len = body_len(kinds, *kind);
            if rest.len() < len {
                return Frame::Waits;
            }
            Frame::Whole(*kind, len)
        }
    }
}

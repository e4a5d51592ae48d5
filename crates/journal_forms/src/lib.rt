// The two forms of a journal, and each as the other: in the wide form a float has 8 bytes, in the
// narrow form 4. Records are converted as bytes, and none is decoded.
#![tactic(auto)]

mod body; // where the floats of a body are, and the body in the other form

ghost use Rattle.std.specs.Prelude.{◌≡◌, true, false, ◌+◌, ◌≤◌, ◌<◌, ◌^◌, suc, length, drop};
ghost use Rattle.journal_frames.specs.Frames.{is_known, body_len};
ghost use Rattle.journal_forms.specs.Forms.{other, kinds_of, record_most};
ghost use Rattle.journal_forms.specs.Conversion.{turns, on_form, number_of};
ghost use Rattle.journal_forms.specs.Turns.{Stepped, goes_on_of, PartConverted};

use crate::body::{is_held, put_body, runs_of};
use journal_frames::Frame;
use journal_records::KINDS;
use text::memory::has_room;

#[derive(Clone, Copy)]
pub enum Form {
    Wide,
    Narrow,
}

// Why a record is refused, in the order in which the causes are looked for, each with its number.
#[derive(Clone, Copy)]
pub enum Cause {
    UnknownKind = 5,
    CutBody = 6,
    // a float that the other form cannot hold exactly
    NotHeld = 11,
}

// The refusal's number.
pub fn number(cause: Cause) -> u8
    ensures { result ≡ number_of cause }
{
    cause as u8
}

// How long the bodies of kinds 1, 2 and so on are in a form.
pub fn kinds_of(form: Form) -> [u16; KINDS]
    ensures { result ≡ kinds_of form }
{
    match form {
        Form::Wide => journal_records::journal_kinds(),
        Form::Narrow => [132, 0, 14, 14, 5, 137, 9, 4],
    }
}

// The longest record of either form, kind byte and body.
const RECORD_MOST: usize = 258;

// What was made of some bytes.
#[derive(Clone, Copy)]
pub struct Converted {
    // the bytes that were taken, and those that were put
    pub at: usize,
    pub n: usize,
    // there may be more to be had of these bytes
    pub more: bool,
    // why a record is refused, if one is
    pub refused: Option<Cause>,
}

// No more is to be had.
fn stopped(p: Converted, refused: Option<Cause>) -> Converted
    ensures { result ≡ record { at = p.at; n = p.n; more = false; refused = refused } }
{
    Converted {
        more: false,
        refused,
        ..p
    }
}

// A whole record with this body. All of it is judged before a byte of it is put.
fn convert_whole(from: Form, kind: u8, body: &[u8], p: Converted, out: &mut [u8]) -> Converted
    requires { (is_known (kinds_of from) kind ≡ true) × (length body.now ≡ body_len (kinds_of from) kind) × (p.at + suc (length body.now) < 2 ^ 64) × (p.n + record_most ≤ length out.old) }
    ensures { Stepped p (turns from (other from) tt kind body.now (suc (length body.now))) out.old result out.new }
{
    let runs = runs_of(kind);
    if is_held(from, &runs, body) {
        let place = p.n;
        out[place] = kind;
        let n = put_body(from, &runs, body, out, place + 1);
        let at = p.at + 1 + body.len();
        return Converted {
            at,
            n,
            more: true,
            refused: None,
        };
    }
    stopped(p, Some(Cause::NotHeld))
}

// The record at a place, if there is one.
fn convert_one(kinds: &[u16], from: Form, s: &[u8], p: Converted, out: &mut [u8]) -> Converted
    requires { (kinds.now ≡ kinds_of from) × (p.at ≤ length s.now) × (p.n + record_most ≤ length out.old) }
    ensures { Stepped p (on_form from (other from) tt (drop p.at s.now)) out.old result out.new }
{
    let at = p.at;
    match journal_frames::frame_at(kinds, s, at) {
        Frame::Waits => stopped(p, None),
        Frame::Unknown => stopped(p, Some(Cause::UnknownKind)),
        Frame::Whole(kind, len) => {
            let start = at + 1;
            let end = start + len;
            convert_whole(from, kind, &s[start..end], p, out)
        }
    }
}

// Whether there is more to do, and room for it.
fn goes_on(more: bool, n: usize, room: usize) -> bool
    ensures { result ≡ goes_on_of more n room }
{
    has_room(RECORD_MOST, n, room) && more
}

// Converts the records at the front of s to the other form as long as there is room for the longest
// one, and puts them to the front of `out`. Of a record that is refused nothing is put. Where `out`
// has no room, it does nothing.
pub fn convert(from: Form, s: &[u8], out: &mut [u8]) -> Converted
    ensures { PartConverted from s.now out.old result out.new }
{
    let kinds = kinds_of(from);
    let mut done = Converted {
        at: 0,
        n: 0,
        more: true,
        refused: None,
    };
    let mut more = goes_on(done.more, done.n, out.len());
    while more {
        let before = done;
        done = convert_one(&kinds, from, s, before, out);
        more = goes_on(done.more, done.n, out.len());
    }
    done
}

// The lines of a tick whose components are close to a face of the box, or have left it, put into
// lent memory.
#![tactic(auto)]

ghost use Rattle.std.specs.Prelude.{◌≡◌, ◌+◌, ◌≤◌, length};
ghost use Rattle.text.specs.Line.{line_room};
ghost use Rattle.text.specs.Memory.{Put};
ghost use Rattle.lictor_core.specs.Rows.{place_of};
ghost use Rattle.proximity_text.specs.Near.{inside, near, said_of, dims_of, inside_of};
ghost use Rattle.proximity_text.specs.Lines.{word_text, said_text, lines_of, lines_room, LinesShown};

use lictor_core::chunk::MAX_POS;
use lictor_core::envelope::FuseConfig;
use report::fields_line;
use text::LINE;
use text::memory::{has_room, put_line};

// What is said of a component at a clean tick, if anything is.
#[derive(Clone, Copy, PartialEq, Eq)]
pub enum Word {
    Within,
    Out,
}

// What the lines of a clean tick go by that came before it.
#[derive(Clone, Copy)]
pub struct Before {
    // how close to a face is close
    pub width: f64,
    // which components were inside at the clean tick before, no reset between
    pub inside: [bool; MAX_POS],
}

// The bytes that the lines of a tick can have at most.
const LINES_ROOM: usize = MAX_POS * LINE;

// ---- one component, taken alone
// (lo, hi and p are elements of three lists: a struct of them would only be filled to be taken apart.)

// From one face to the other; on a face it is inside.
fn is_inside(lo: f64, hi: f64, p: f64) -> bool
    ensures { result ≡ inside lo hi p }
{
    (lo <= p) & (p <= hi)
}

// Less than the width from a face; each difference is rounded once.
fn is_near(width: f64, lo: f64, hi: f64, p: f64) -> bool
    ensures { result ≡ near width lo hi p }
{
    (hi - p < width) | (p - lo < width)
}

#[tactic(auto, unfolding(crate::specs::Near::said_of))]
fn said_of(width: f64, was: bool, lo: f64, hi: f64, p: f64) -> Option<Word>
    ensures { result ≡ said_of width was lo hi p }
{
    if is_inside(lo, hi, p) {
        is_near(width, lo, hi, p).then_some(Word::Within)
    } else {
        was.then_some(Word::Out)
    }
}

// The position of a component; a NaN where the list is too short, which no clean tick's is.
fn place_of(pos: &[f64], c: usize) -> f64
    ensures { result ≡ place_of pos.now c }
{
    pos.get(c).copied().unwrap_or(fmath::nan())
}

// Which components are inside; those from pos_dim on are never asked for.
pub fn inside_of(config: FuseConfig, pos: &[f64]) -> [bool; MAX_POS]
    ensures { result ≡ inside_of config pos.now }
{
    let lo = config.box_lo;
    let hi = config.box_hi;
    let mut inside = [false; MAX_POS];
    for c in 0..MAX_POS {
        inside[c] = is_inside(lo[c], hi[c], place_of(pos, c));
    }
    inside
}

// ---- lines

fn text_of(word: Word) -> &'static [u8]
    ensures { result.now ≡ word_text word }
{
    match word {
        Word::Within => b"within",
        Word::Out => b"out",
    }
}

fn put_said(said: Option<Word>, t: u64, c: u64, out: &mut [u8], n: usize) -> usize
    requires { n + line_room ≤ length out.old }
    ensures { Put out.old n (said_text said t c) result out.new }
{
    match said {
        Some(word) => put_line(out, n, fields_line(text_of(word), &[t, c])),
        None => n,
    }
}

fn put_lines(
    config: FuseConfig,
    before: Before,
    t: u64,
    pos: &[f64],
    out: &mut [u8],
    n: usize,
) -> usize
    requires { n + lines_room ≤ length out.old }
    ensures { Put out.old n (lines_of config before t pos.now) result out.new }
{
    let lo = config.box_lo;
    let hi = config.box_hi;
    let was = before.inside;
    let dims = config.pos_dim.min(MAX_POS);
    let mut at = n;
    for c in 0..dims {
        let said = said_of(before.width, was[c], lo[c], hi[c], place_of(pos, c));
        at = put_said(said, t, c as u64, out, at);
    }
    at
}

// Puts the lines of a clean tick after the first n bytes, and answers where they end.
// Where there is no room after n for a line of each of eight components, it puts nothing.
pub fn show_lines(
    config: FuseConfig,
    before: Before,
    t: u64,
    pos: &[f64],
    out: &mut [u8],
    n: usize,
) -> usize
    ensures { LinesShown config before t pos.now out.old n result out.new }
{
    if has_room(LINES_ROOM, n, out.len()) {
        return put_lines(config, before, t, pos, out, n);
    }
    n
}

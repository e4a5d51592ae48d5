// The lines of a page, put into lent memory: a tick's row, and the line with the page's number.
#![tactic(auto)]

ghost use Rattle.std.specs.Prelude.{◌≡◌, ◌≤◌};
ghost use Rattle.text.specs.Line.{line_of, push_of};
ghost use Rattle.text.specs.Number.{decimal_of};
ghost use Rattle.text.specs.Column.{blanks, right, left};
ghost use Rattle.page_text.specs.Names.{state_name};
ghost use Rattle.page_text.specs.Rows.{tick_row, page_row, as_line, RowShown, PageShown};

use lictor_core::state::FuseState;
use lictor_core::verdict::SafetyVerdict;
use margin::Margin;
use report::push_margin;
use text::memory::{has_room, show_line};
use text::{LINE, Line};

// The characters of each line, without its newline.
const WIDTH: usize = 55;

// More blanks than are put at once.
const BLANKS: usize = 64;

fn push_blanks(l: &mut Line, k: usize)
    requires { k ≤ 64 }
    ensures { l.new ≡ push_of l.old (blanks k) }
{
    l.push(&[b' '; BLANKS][..k]);
}

// A text at the right of w characters, or at the left.
fn push_right(l: &mut Line, w: usize, text: &[u8])
    requires { w ≤ 64 }
    ensures { l.new ≡ push_of l.old (right w text.now) }
{
    push_blanks(l, w.saturating_sub(text.len()));
    l.push(text);
}

fn push_left(l: &mut Line, w: usize, text: &[u8])
    requires { w ≤ 64 }
    ensures { l.new ≡ push_of l.old (left w text.now) }
{
    l.push(text);
    push_blanks(l, w.saturating_sub(text.len()));
}

// (The digits lie in an array first, since blanks come before them.)
fn push_number(l: &mut Line, w: usize, x: u64)
    requires { w ≤ 64 }
    ensures { l.new ≡ push_of l.old (right w (decimal_of x)) }
{
    let mut digits = [0u8; 20];
    let k = io::decimal(x, &mut digits);
    push_right(l, w, &digits[..k]);
}

// The state's name, as in state.rs.
fn name_of(s: FuseState) -> &'static [u8]
    ensures { result.now ≡ state_name s }
{
    match s {
        FuseState::Idle => b"Idle",
        FuseState::Armed => b"Armed",
        FuseState::Watching => b"Watching",
        FuseState::Clamped => b"Clamped",
        FuseState::Braking => b"Braking",
        FuseState::Held => b"Held",
        FuseState::Escalated => b"Escalated",
        FuseState::Fault => b"Fault",
        FuseState::Terminated => b"Terminated",
    }
}

// Six columns: seq, t, state, reason, trips, and the margin as `fuse` prints it.
fn push_row(l: &mut Line, v: SafetyVerdict)
    ensures { l.new ≡ push_of l.old (as_line (tick_row v)) }
{
    push_number(l, 10, u64::from(v.seq));
    l.push(b" ");
    push_number(l, 10, u64::from(v.t));
    l.push(b" ");
    push_left(l, 10, name_of(v.state));
    l.push(b" ");
    push_number(l, 2, v.reason as u64);
    l.push(b" ");
    push_number(l, 10, u64::from(v.trips));
    l.push(b" ");
    let mut margin = Line::new();
    push_margin(&mut margin, Margin::from(v.brake_margin));
    push_right(l, 8, margin.as_bytes());
    l.push(b"\n");
}

// Puts the row of a tick after the first n bytes, and answers where it ends.
// Where fewer than LINE bytes are left after n, it puts nothing, and builds no line.
pub fn show_row(v: SafetyVerdict, out: &mut [u8], n: usize) -> usize
    ensures { RowShown v out.old n result out.new }
{
    if !has_room(LINE, n, out.len()) {
        return n;
    }
    let mut l = Line::new();
    push_row(&mut l, v);
    show_line(out, n, &l)
}

fn page_line(number: u64) -> Line
    ensures { result ≡ line_of (as_line (page_row number)) }
{
    let mut l = Line::new();
    l.push(b"page ");
    push_number(&mut l, 10, number);
    let n = l.as_bytes().len();
    push_blanks(&mut l, WIDTH.saturating_sub(n));
    l.push(b"\n");
    l
}

// Puts the line of a page's number after the first n bytes, and answers where it ends.
// Where fewer than LINE bytes are left after n, it puts nothing, and builds no line.
pub fn show_page(number: u64, out: &mut [u8], n: usize) -> usize
    ensures { PageShown number out.old n result out.new }
{
    if !has_room(LINE, n, out.len()) {
        return n;
    }
    show_line(out, n, &page_line(number))
}

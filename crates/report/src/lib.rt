// The lines of `fuse`: of a tick, a margin, the end and a refusal.
#![tactic(auto)]

pub mod render; // the text of a tick, put into lent memory

ghost use Rattle.std.specs.Prelude.{◌≡◌, ◌++◌};
ghost use Rattle.text.specs.Ascii.{ascii};
ghost use Rattle.text.specs.Line.{line_of, push_of};
ghost use Rattle.report.specs.Lines.{margin_text, field_text, fields_text, numbers_in, tick_text, end_text, refused_text};

use lictor_core::tally::Tally;
use lictor_core::verdict::SafetyVerdict;
use margin::Margin;
use text::Line;

// The text of a margin.
#[tactic(auto, unfolding(crate::specs::Lines::margin_text))]
pub fn push_margin(l: &mut Line, m: Margin)
    ensures { l.new ≡ push_of l.old (margin_text m) }
{
    match m {
        Margin::NoMargin => l.push(b"none"),
        Margin::PlusFar => l.push(b"+far"),
        Margin::MinusFar => l.push(b"-far"),
        Margin::Millis(z) => l.push_signed(z),
    }
}

// A blank and a number.
fn push_field(l: &mut Line, x: u64)
    ensures { l.new ≡ push_of l.old (field_text x) }
{
    l.push(b" ");
    l.push_number(x);
}

// The same after a line that is passed by value.
pub fn field(mut l: Line, x: u64) -> Line
    ensures { result ≡ push_of l (field_text x) }
{
    push_field(&mut l, x);
    l
}

// Numbers, each after a blank.
fn push_fields(l: &mut Line, numbers: &[u64])
    ensures { l.new ≡ push_of l.old (fields_text numbers.now) }
{
    for x in numbers {
        push_field(l, *x);
    }
}

// A word, numbers each after a blank, and a newline.
pub fn fields_line(word: &[u8], numbers: &[u64]) -> Line
    ensures { result ≡ line_of (word.now ++ fields_text numbers.now ++ ascii "\n") }
{
    let mut l = Line::new();
    l.push(word);
    push_fields(&mut l, numbers);
    l.push(b"\n");
    l
}

// The six numbers of a tick's line.
fn numbers_in(v: SafetyVerdict) -> [u64; 6]
    ensures { result ≡ numbers_in v }
{
    let (state, reason) = (v.state as u64, v.reason as u64);
    [
        u64::from(v.seq),
        u64::from(v.t),
        state,
        reason,
        u64::from(v.trips),
        v.action_src as u64,
    ]
}

// The line of a tick.
pub(crate) fn push_tick(l: &mut Line, v: SafetyVerdict)
    ensures { l.new ≡ push_of l.old (tick_text v) }
{
    l.push(b"tick");
    push_fields(l, &numbers_in(v));
    l.push(b" ");
    push_margin(l, Margin::from(v.brake_margin));
    l.push(b"\n");
}

// The line at the end of a journal.
pub fn end_line(t: Tally) -> Line
    ensures { result ≡ line_of (end_text t) }
{
    fields_line(b"end", &[u64::from(t.ticks), u64::from(t.stop_actions)])
}

// The line of a refusal. (Its number is what is printed: the programs have numbers of their own
// beside the journal's refusals.)
pub fn refused_line(number: u8, place: u64) -> Line
    ensures { result ≡ line_of (refused_text number place) }
{
    fields_line(b"refused", &[u64::from(number), place])
}

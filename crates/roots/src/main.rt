// Reads patterns of binary64, one to a line of 16 lower-case hexadecimal digits, and writes each
// with its square root: the pattern, a space, the pattern of the root (`nan` for every NaN), a
// newline. At a line that is no such text it writes `bad line` and stops.
#![tactic(auto)]

ghost use Rattle.std.specs.Prelude.{IfSome, ◌<◌, ◌≡◌, ◌+◌, ◌*◌, ◌≤◌, length};
ghost use Rattle.text.specs.Line.{line_of};
ghost use Rattle.text.specs.Memory.{Put};
ghost use Rattle.roots.specs.Text.{line_bytes, answer_bytes, turn_lines, digit_of, pattern_of, root_text, answer_to, is_bad, line_count, Answered};

use text::Line;
use text::memory::put;

// The bytes of a line, those of an answer at most, and the lines that a turn takes at most.
const LINE_BYTES: usize = 17;

const ANSWER: usize = 34;

const MOST_LINES: usize = 240;

// ---- reading

// The value of a hexadecimal digit. By hand: the library's `to_digit` takes upper case too.
#[tactic(auto, unfolding(crate::specs::Text::digit_of))]
fn digit(byte: u8) -> Option<u8>
    ensures value { result ≡ digit_of byte }
    ensures small { IfSome result (λ d. d < 16) }
{
    match byte {
        b'0'..=b'9' => Some(byte - b'0'),
        b'a'..=b'f' => Some(byte - b'a' + 10),
        _ => None,
    }
}

// What a line says, its newline included, if it is such a text.
fn read_line(line: &[u8]) -> Option<u64>
    ensures { result ≡ pattern_of line.now }
{
    if line.len() != LINE_BYTES {
        return None;
    }
    if line[16] != b'\n' {
        return None;
    }
    let mut pattern: u64 = 0;
    for at in 0..16 {
        let d = digit(line[at])?;
        pattern = pattern * 16 + d as u64;
    }
    Some(pattern)
}

// ---- writing

// The line for a pattern.
fn root_line(b: u64) -> Line
    ensures { result ≡ line_of (root_text b) }
{
    let root = fmath::sqrt(floats::double(b));
    let mut l = Line::new();
    l.push_hex(b);
    l.push(b" ");
    l.push_float(root);
    l.push(b"\n");
    l
}

// Puts the line for a pattern.
fn put_root(out: &mut [u8], at: usize, b: u64) -> usize
    requires { at + answer_bytes ≤ length out.old }
    ensures { Put out.old at (root_text b) result out.new }
{
    put(out, at, root_line(b).as_bytes())
}

// ---- lines

// How far the answers go, and whether the last is to a bad line. It says how far in both cases, so
// that neither an Option nor a Result is plainer.
#[derive(Clone, Copy)]
struct Done {
    n: usize,
    bad: bool,
}

fn answer_line(s: &[u8], out: &mut [u8], at: usize) -> Done
    requires { at + answer_bytes ≤ length out.old }
    ensures { Put out.old at (answer_to s.now) result.n out.new × (result.bad ≡ is_bad s.now) }
{
    match read_line(s) {
        Some(b) => Done {
            n: put_root(out, at, b),
            bad: false,
        },
        None => Done {
            n: put(out, at, b"bad line\n"),
            bad: true,
        },
    }
}

// Answers the lines of s, up to the first that is bad, at the start of out.
fn answer(s: &[u8], out: &mut [u8]) -> Done
    requires { line_count s.now * answer_bytes ≤ length out.old }
    ensures { Answered s.now out.new result.n result.bad }
{
    let mut n: usize = 0;
    for line in s.chunks(LINE_BYTES) {
        let done = answer_line(line, out, n);
        if done.bad {
            return done;
        }
        n = done.n;
    }
    Done { n, bad: false }
}

// ---- the program

// Room for the lines of a turn, and for their answers.
fn line_space() -> [u8; MOST_LINES * LINE_BYTES]
    ensures { turn_lines * line_bytes ≡ length result }
{
    [0; MOST_LINES * LINE_BYTES]
}

fn answer_space() -> [u8; MOST_LINES * ANSWER]
    ensures { turn_lines * answer_bytes ≡ length result }
{
    [0; MOST_LINES * ANSWER]
}

// Reads and answers up to MOST_LINES lines, and says whether to go on.
fn turn() -> bool {
    let mut lines = line_space();
    let n = io::read_full(0, &mut lines);
    if n == 0 {
        return false;
    }
    let mut out = answer_space();
    let done = answer(&lines[..n], &mut out);
    let is_written = io::write_all(1, &out[..done.n]);
    is_written && !done.bad
}

// Nothing says that the input ends, so there are as many turns as none uses up.
fn main() {
    for _ in 0..u64::MAX {
        if !turn() {
            return;
        }
    }
}

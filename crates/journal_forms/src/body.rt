// Where the floats of a body are, and the body in the other form.
ghost use Rattle.std.specs.Prelude.{◌≡◌, true, ◌+◌, ◌*◌, ◌^◌, ◌≤◌, ◌<◌, length, drop};
ghost use Rattle.std.specs.Float.{binary32, binary64};
ghost use Rattle.std.specs.Float.Ieee.{of_bits, to_bits, fits};
ghost use Rattle.text.specs.Memory.{Put, place_put, memory_put};
ghost use Rattle.journal_forms.specs.Forms.{other, format_of, float_bytes, runs_of};
ghost use Rattle.journal_forms.specs.Body.{le_bytes, float_in, floats_in, floats_to, all_pass, run_bytes, runs_bytes, run_floats, run_to, body_to, body_held};

use crate::Form;
use journal_records::Kind;
use journal_records::little::{le32, le64};

// So many bytes that are no float, and then so many floats.
#[derive(Clone, Copy)]
pub struct Run {
    pub copied: usize,
    pub floats: usize,
}

fn run_of(copied: usize, floats: usize) -> Run
    ensures { result ≡ record { copied = copied; floats = floats } }
{
    Run { copied, floats }
}

// Where the floats of a kind are: two runs, and after them bytes that are no float.
#[tactic(auto, unfolding(crate::specs::Forms::runs_of, journal_records::specs::Kinds::kind_of))]
pub(crate) fn runs_of(kind: u8) -> [Run; 2]
    ensures { result ≡ runs_of kind }
{
    match Kind::try_from(kind) {
        Ok(Kind::Settings) => [run_of(44, 22), run_of(0, 0)],
        Ok(Kind::Value) => [run_of(1, 1), run_of(0, 0)],
        Ok(Kind::Outcome) => [run_of(9, 2), run_of(8, 28)],
        Ok(Kind::Width) => [run_of(0, 1), run_of(0, 0)],
        _ => [run_of(0, 0), run_of(0, 0)],
    }
}

// The bytes of a float.
fn float_bytes(form: Form) -> usize
    ensures { result ≡ float_bytes form }
{
    match form {
        Form::Wide => 8,
        Form::Narrow => 4,
    }
}

fn other(form: Form) -> Form
    ensures { result ≡ other form }
{
    match form {
        Form::Wide => Form::Narrow,
        Form::Narrow => Form::Wide,
    }
}

// ---- whether the other form holds the floats

// The float at a place.
fn float_held(from: Form, s: &[u8], at: usize) -> bool
    ensures { result ≡ fits (format_of (other from)) (float_in from (drop at s.now)) }
{
    match from {
        Form::Wide => binary32::narrow(le64(s, at)).is_some(),
        Form::Narrow => true,
    }
}

// The floats from a place on.
fn floats_held(from: Form, s: &[u8], at: usize, count: usize) -> bool
    requires { at + count * float_bytes from ≤ length s.now }
    ensures { result ≡ all_pass (fits (format_of (other from))) (floats_in from count (drop at s.now)) }
{
    let width = float_bytes(from);
    for i in 0..count {
        if !float_held(from, s, at + i * width) {
            return false;
        }
    }
    true
}

// The bytes of a run.
fn run_bytes(form: Form, run: Run) -> usize
    requires { run_bytes form run < 2 ^ 64 }
    ensures { result ≡ run_bytes form run }
{
    run.copied + run.floats * float_bytes(form)
}

// The floats of a body, run by run.
pub(crate) fn is_held(from: Form, runs: &[Run], body: &[u8]) -> bool
    requires { runs_bytes from runs.now ≤ length body.now }
    ensures { result ≡ body_held from (other from) runs.now body.now }
{
    let mut at = 0;
    for run in runs {
        if !floats_held(from, body, at + run.copied, run.floats) {
            return false; // whatever comes in a later run
        }
        at += run_bytes(from, *run);
    }
    true
}

// ---- the other form, put into memory after its first n bytes

// The bytes of a float's pattern in a form, the lowest first.
fn put_number(out: &mut [u8], n: usize, form: Form, number: u64) -> usize
    requires { n + float_bytes form ≤ length out.old }
    ensures { Put out.old n (le_bytes (float_bytes form) number) result out.new }
{
    let bytes = number.to_le_bytes();
    match form {
        Form::Wide => {
            out[n..n + 8].copy_from_slice(&bytes);
            n + 8
        }
        Form::Narrow => {
            out[n..n + 4].copy_from_slice(&bytes[..4]);
            n + 4
        }
    }
}

// The pattern, in the other form, of the float at a place.
fn pattern_at(from: Form, s: &[u8], at: usize) -> u64
    requires { fits (format_of (other from)) (float_in from (drop at s.now)) ≡ true }
    ensures { result ≡ to_bits (format_of (other from)) (float_in from (drop at s.now)) }
{
    match from {
        Form::Wide => binary32::narrow(le64(s, at)).unwrap() as u64,
        Form::Narrow => binary32::widen(le32(s, at)),
    }
}

// The floats from a place on.
fn put_floats(from: Form, s: &[u8], at: usize, count: usize, out: &mut [u8], n: usize) -> usize
    requires { (at + count * float_bytes from ≤ length s.now) × (n + count * float_bytes (other from) ≤ length out.old) × (all_pass (fits (format_of (other from))) (floats_in from count (drop at s.now)) ≡ true) }
    ensures { Put out.old n (floats_to (other from) (floats_in from count (drop at s.now))) result out.new }
{
    let width = float_bytes(from);
    let to = other(from);
    let mut end = n;
    for i in 0..count {
        end = put_number(out, end, to, pattern_at(from, s, at + i * width));
    }
    end
}

// A part of the body that is copied. It is empty in most records, and each copy is a call.
fn put_part(out: &mut [u8], n: usize, part: &[u8]) -> usize
    ensures { (result ≡ place_put (length out.old) n part.now) × (out.new ≡ memory_put out.old n part.now) }
{
    if part.is_empty() {
        return n;
    }
    text::memory::put(out, n, part)
}

// The run at a place.
fn put_run(from: Form, run: Run, s: &[u8], at: usize, out: &mut [u8], n: usize) -> usize
    requires { (at + run_bytes from run ≤ length s.now) × (n + run_bytes (other from) run ≤ length out.old) × (all_pass (fits (format_of (other from))) (run_floats from run (drop at s.now)) ≡ true) }
    ensures { Put out.old n (run_to from (other from) run (drop at s.now)) result out.new }
{
    let floats = at + run.copied;
    let end = put_part(out, n, &s[at..floats]);
    put_floats(from, s, floats, run.floats, out, end)
}

// A body, run by run, and the bytes after them.
pub(crate) fn put_body(from: Form, runs: &[Run], body: &[u8], out: &mut [u8], n: usize) -> usize
    requires { (runs_bytes from runs.now ≤ length body.now) × (n + length (body_to from (other from) runs.now body.now) ≤ length out.old) × (body_held from (other from) runs.now body.now ≡ true) }
    ensures { Put out.old n (body_to from (other from) runs.now body.now) result out.new }
{
    let mut at = 0;
    let mut end = n;
    for run in runs {
        end = put_run(from, *run, body, at, out, end);
        at += run_bytes(from, *run);
    }
    put_part(out, end, &body[at..])
}

// Standard output, and standard error beside it: what is handed over to be written is counted where
// it is handed over.
ghost use Rattle.std.specs.Prelude.{◌≡◌, ◌+◌, ◌%◌, ◌^◌, true, false, length};

use crate::streams::Streams;

// It goes beside the streams and not into one struct with them: behind `&mut self` the check knows no
// bound of a count (tried).
#[derive(Clone, Copy)]
pub struct Written {
    // the bytes that were handed over to standard output, modulo 2^64
    bytes: u64,
    // those that were handed over to standard error, modulo 2^64
    beside: u64,
    // a write failed
    failed: bool,
}

impl Written {
    // Nothing was handed over yet.
    pub fn nothing() -> Written
        ensures { result ≡ record { bytes = 0; beside = 0; failed = false } }
    {
        Written {
            bytes: 0,
            beside: 0,
            failed: false,
        }
    }

    // Whether a write failed.
    pub fn has_failed(self) -> bool
        ensures { result ≡ self.failed }
    {
        self.failed
    }
}

// Whether a write failed: this one, or one before it. Whether this one did is the operating system's
// answer.
fn either_failed(this: bool, before: bool) -> bool
    ensures { before ≡ true → result ≡ true }
{
    before || this
}

// Hands over all of `part` to standard output.
pub fn put(streams: &mut Streams, w: Written, part: &[u8]) -> Written
    ensures bytes_value { result.bytes ≡ (w.bytes + length part.now) % 2 ^ 64 }
    ensures beside_value { result.beside ≡ w.beside }
    ensures failed_value { w.failed ≡ true → result.failed ≡ true }
{
    let bytes = w.bytes.wrapping_add(part.len() as u64);
    let failed = either_failed(!streams.put(part), w.failed);
    Written { bytes, failed, ..w }
}

// Hands over all of `part` to standard error.
pub fn put_beside(streams: &mut Streams, w: Written, part: &[u8]) -> Written
    ensures bytes_value { result.bytes ≡ w.bytes }
    ensures beside_value { result.beside ≡ (w.beside + length part.now) % 2 ^ 64 }
    ensures failed_value { w.failed ≡ true → result.failed ≡ true }
{
    let beside = w.beside.wrapping_add(part.len() as u64);
    let failed = either_failed(!streams.put_beside(part), w.failed);
    Written {
        beside,
        failed,
        ..w
    }
}

// ---- what a program says of its own input and output, on standard error: no part of any text, so
// it is in no count

// Says that something failed in the program of this name: one line, with the system's text of why
// the last call failed, so no other call may come between.
pub fn say_failed(streams: &mut Streams, w: Written, name: &[u8], what: &[u8]) -> Written
    ensures { result ≡ w }
{
    let error = streams.error();
    streams.put_beside(name);
    streams.put_beside(what);
    streams.put_beside(b": ");
    streams.put_error(error);
    streams.put_beside(b"\n");
    w
}

// Says something, after the name of the program.
pub fn say(streams: &mut Streams, w: Written, name: &[u8], what: &[u8]) -> Written
    ensures { result ≡ w }
{
    streams.put_beside(name);
    streams.put_beside(what);
    w
}

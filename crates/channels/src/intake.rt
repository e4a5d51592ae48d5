// The bytes of standard input that are at hand: those that wait are moved to the front of memory,
// and more are read after them.
ghost use Rattle.std.specs.Prelude.{◌≡◌, false, take};
ghost use Rattle.channels.specs.declared.intake.Supply.TheVariants as Supply;
ghost use Rattle.channels.specs.Intake.{moved_down, is_spent, is_over, Came};

use crate::streams::Streams;

// Moves the bytes from `at` to `have` down to the front.
pub fn move_down(buf: &mut [u8], at: usize, have: usize)
    ensures { buf.new ≡ moved_down at have buf.old }
{
    let end = have.min(buf.len());
    if at < end {
        buf.copy_within(at..end, 0);
    }
}

// Whether there may be more to read.
#[derive(Clone, Copy)]
pub enum Supply {
    // bytes came, or a signal interrupted the read
    More,
    // the input is over
    Over,
    // the read failed
    Failed,
    // no read was made, since MOST_READS were made before
    Spent,
}

// The reads that were made, and what the last one said.
#[derive(Clone, Copy)]
pub struct Reads {
    made: u64,
    // the bytes that they brought, modulo 2^64
    bytes: u64,
    last: Supply,
}

// The reads that a program makes at most, since every function has to end: 2^47, more than a
// thousand years of one each millisecond.
const MOST_READS: u64 = 140737488355328;

impl Reads {
    // None was made yet.
    pub fn none() -> Reads
        ensures { result ≡ record { made = 0; bytes = 0; last = Supply.More } }
    {
        Reads {
            made: 0,
            bytes: 0,
            last: Supply::More,
        }
    }

    // What the last read said.
    pub fn last(self) -> Supply
        ensures { result ≡ self.last }
    {
        self.last
    }
}

// What is at hand after a read.
#[derive(Clone, Copy)]
pub struct Got {
    pub have: usize,
    pub reads: Reads,
}

// What a read that brought no bytes says; it answered 0, or not.
fn none_came(streams: &Streams, zero: bool) -> Supply
    ensures { (is_spent result ≡ false) × (is_over result ≡ zero) }
{
    if zero {
        return Supply::Over;
    }
    if streams.is_interrupted() {
        return Supply::More;
    }
    Supply::Failed
}

// Reads once after the first `have` bytes, and counts the read.
pub fn read_more(streams: &mut Streams, buf: &mut [u8], have: usize, reads: Reads) -> Got
    ensures { Came (take have buf.old) reads result buf.new }
{
    let front = have.min(buf.len());
    if reads.made >= MOST_READS {
        return Got {
            have: front,
            reads: Reads {
                last: Supply::Spent,
                ..reads
            },
        };
    }
    let came = streams.read(&mut buf[front..]);
    let bytes = reads.bytes.wrapping_add(came as u64);
    let last = if came != 0 {
        Supply::More
    } else {
        none_came(streams, !streams.has_failed())
    };
    Got {
        have: front + came,
        reads: Reads {
            made: reads.made + 1,
            bytes,
            last,
        },
    }
}

// The three standard streams, and why the last call on one of them failed, if it did.
ghost use Rattle.std.specs.Prelude.{◌≡◌, ◌≤◌, None, length};

use std::io::{Cursor, Error, ErrorKind, Read, Result, Stderr, Stdin, Stdout, Write};
use std::rt::HostRuntime;

#[derive(Drop)]
pub struct Streams {
    input: Stdin,
    output: Stdout,
    errors: Stderr,
    // why the last call failed, if it did
    error: Option<Error>,
}

// Writes all of `part`, up to the first write that takes nothing or fails: `Write::write_all` would try
// again where a signal interrupts a write.
fn write_all<W: Write>(to: &mut W, part: &[u8]) -> Result<()> {
    let mut rest = part;
    while !rest.is_empty() {
        let n = to.write(rest)?;
        if n == 0 {
            return Err(Error::from(ErrorKind::WriteZero));
        }
        rest = &rest[n..];
    }
    Ok(())
}

// How many bytes come before the number that follows the system's text of an error.
fn text_length(text: &[u8]) -> usize
    ensures { result ≤ length text.now }
{
    for at in 0..text.len() {
        if text[at..].starts_with(b" (os error ") {
            return at;
        }
    }
    text.len()
}

impl Streams {
    // No call has failed yet.
    pub fn new(rt: &HostRuntime) -> Streams
        ensures { result.error ≡ None }
    {
        Streams {
            input: rt.stdin(),
            output: rt.stdout(),
            errors: rt.stderr(),
            error: None,
        }
    }

    // Reads once, and says how many bytes came: none where the input is over or the read failed.
    pub(crate) fn read(&mut self, buf: &mut [u8]) -> usize
        ensures { result ≤ length buf.new }
    {
        match self.input.read(buf) {
            Ok(n) => {
                self.error = None;
                n
            }
            Err(e) => {
                self.error = Some(e);
                0
            }
        }
    }

    // Writes all of `part` to standard output, and says whether it could.
    pub(crate) fn put(&mut self, part: &[u8]) -> bool {
        self.error = write_all(&mut self.output, part).err();
        self.error.is_none()
    }

    // The same to standard error.
    pub(crate) fn put_beside(&mut self, part: &[u8]) -> bool {
        self.error = write_all(&mut self.errors, part).err();
        self.error.is_none()
    }

    // Whether the last call failed.
    pub(crate) fn has_failed(&self) -> bool {
        self.error.is_some()
    }

    // Whether a signal interrupted the last call.
    pub(crate) fn is_interrupted(&self) -> bool {
        match self.error {
            Some(e) => e.kind() == ErrorKind::Interrupted,
            None => false,
        }
    }

    // Why the last call failed, if it did.
    pub(crate) fn error(&self) -> Option<Error> {
        self.error
    }

    // Writes the system's text of an error to standard error, and says whether it could.
    pub(crate) fn put_error(&mut self, error: Option<Error>) -> bool {
        let Some(e) = error else {
            return true;
        };
        let mut to = Cursor::new([0u8; 256]);
        let _ = write!(to, "{e}");
        let end = to.position().min(256) as usize;
        let text = to.into_inner();
        let n = text_length(&text[..end]);
        self.put_beside(&text[..n])
    }
}

// Text put into lent memory, after the first bytes of it. Where there is no room for all of it,
// nothing is put. (The place n stands beside the memory, here and in the crates above: each function
// promises what it does for every n, REQUIREMENTS.md, Q-02, and the caller keeps it.)
ghost use Rattle.std.specs.Prelude.{◌≡◌, length, take};
ghost use Rattle.text.specs.Line.{line_room, bytes_of};
ghost use Rattle.text.specs.Memory.{place_put, memory_put, has_room, place_with, memory_with};

use crate::{LINE, Line};

// Puts a text after the first n bytes, and answers where it ends: at n where it is not put.
pub fn put(out: &mut [u8], n: usize, text: &[u8]) -> usize
    ensures { (result ≡ place_put (length out.old) n text.now) × (out.new ≡ memory_put out.old n text.now) }
{
    if !has_room(text.len(), n, out.len()) {
        return n;
    }
    let end = n + text.len();
    out[n..end].copy_from_slice(text);
    end
}

// Puts a line after the first n bytes, and answers where it ends: at n where it is not put.
pub fn put_line(out: &mut [u8], n: usize, l: Line) -> usize
    ensures { (result ≡ place_put (length out.old) n (take l.n l.text)) × (out.new ≡ memory_put out.old n (take l.n l.text)) }
{
    let text = l.as_bytes();
    put(out, n, text)
}

// Puts a line after the first n bytes, and answers where it ends. Where fewer than LINE bytes are
// left after n, it puts nothing.
pub fn show_line(out: &mut [u8], n: usize, l: &Line) -> usize
    ensures { (result ≡ place_with line_room (length out.old) n (bytes_of l.now)) × (out.new ≡ memory_with line_room out.old n (bytes_of l.now)) }
{
    if !has_room(LINE, n, out.len()) {
        return n;
    }
    put(out, n, l.as_bytes())
}

// Whether so many bytes are left after the first n of so much memory.
pub fn has_room(need: usize, n: usize, room: usize) -> bool
    ensures { result ≡ has_room need n room }
{
    match n.checked_add(need) {
        Some(end) => end <= room,
        None => false,
    }
}

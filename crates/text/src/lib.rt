// Lines of text, built in fixed memory. What comes after LINE bytes is dropped.
#![tactic(auto)]

pub mod memory; // text put into lent memory

ghost use Rattle.std.specs.Prelude.{◌≡◌, ◌≤◌, ℕ, List, [], map, length, cond};
ghost use Rattle.text.specs.Line.{line_room, line_of, bytes_of, push_of};
ghost use Rattle.text.specs.Number.{decimal_of, signed_of, hex_in, float_text, optional_text};
ghost use Rattle.text.specs.Commas.{commas};

// The bytes that a line has room for.
pub const LINE: usize = 256;

// The first n bytes are the line's; in one that was built here the others are zero. (Array and length
// are public: a caller may make a line of its own, and every n has a meaning, also one above LINE.)
#[derive(Clone, Copy)]
pub struct Line {
    pub text: [u8; LINE],
    pub n: usize,
}

impl Line {
    #[tactic(auto, unfolding(crate::specs::Line::line_of))]
    pub fn new() -> Line
        ensures { result ≡ line_of [] }
    {
        Line {
            text: [0; LINE],
            n: 0,
        }
    }

    // Its bytes: all of the array where n is above LINE.
    pub fn as_bytes(&self) -> &[u8]
        ensures bytes { result.now ≡ bytes_of self.now }
        ensures fits { length result.now ≤ line_room }
    {
        &self.text[..self.n.min(LINE)]
    }

    // The bytes b after the line; a full line stays as it is.
    pub fn push(&mut self, b: &[u8])
        ensures { self.new ≡ push_of self.old b.now }
    {
        let n = self.n;
        if n < LINE {
            let room = LINE - n;
            if b.len() <= room {
                let end = n + b.len();
                self.text[n..end].copy_from_slice(b);
                self.n = end;
            } else {
                self.text[n..].copy_from_slice(&b[..room]);
                self.n = LINE;
            }
        }
    }

    // A number in decimal. (Here and in push_hex the digits lie in an array first: so `io` gives them.)
    pub fn push_number(&mut self, x: u64)
        ensures { self.new ≡ push_of self.old (decimal_of x) }
    {
        let mut digits = [0u8; 20];
        let k = io::decimal(x, &mut digits);
        self.push(&digits[..k]);
    }

    // A signed number in decimal, with a minus sign where it is negative.
    pub fn push_signed(&mut self, z: i32)
        ensures { self.new ≡ push_of self.old (signed_of z) }
    {
        let minus = z < 0;
        if minus {
            self.push(b"-");
        }
        self.push_number(u64::from(z.unsigned_abs()));
    }

    // The 16 hexadecimal digits of a pattern.
    pub fn push_hex(&mut self, b: u64)
        ensures { self.new ≡ push_of self.old (hex_in 16 b) }
    {
        let mut digits = [0u8; 16];
        let k = io::hex(b, 16, &mut digits);
        self.push(&digits[..k]);
    }

    // The bits of a float as 16 hexadecimal digits, every NaN as `nan`.
    pub fn push_float(&mut self, x: f64)
        ensures { self.new ≡ push_of self.old (float_text x) }
    {
        if x.is_nan() {
            self.push(b"nan");
        } else {
            self.push_hex(x.to_bits());
        }
    }

    // Elements of a list with commas between.
    pub fn push_list<T: Printed + Copy>(&mut self, xs: &[T])
        ensures { self.new ≡ push_of self.old (commas (map T.text xs.now)) }
    {
        if let Some((first, others)) = xs.split_first() {
            first.print(self);
            for x in others {
                self.push(b",");
                x.print(self);
            }
        }
    }
}

// What has one text, whatever line it is put after. (Not Display, here and in the crates above: a
// float is printed by its bits, and a line takes what fits and cannot fail.)
pub trait Printed {
    ghost text: { Self → List ℕ };

    // Its text after the line.
    fn print(self, line: &mut Line)
        ensures { line.new ≡ push_of line.old (text self) };
}

// A flag is 0 or 1.
impl Printed for bool {
    ghost text = { λ b. decimal_of (cond b 1 0) };

    fn print(self, line: &mut Line) {
        line.push_number(u64::from(self));
    }
}

// (An impl for each width: one for all T: Into<u64> would overlap those below.)
impl Printed for u8 {
    ghost text = { decimal_of };

    fn print(self, line: &mut Line) {
        line.push_number(u64::from(self));
    }
}

impl Printed for u16 {
    ghost text = { decimal_of };

    fn print(self, line: &mut Line) {
        line.push_number(u64::from(self));
    }
}

impl Printed for u32 {
    ghost text = { decimal_of };

    fn print(self, line: &mut Line) {
        line.push_number(u64::from(self));
    }
}

impl Printed for u64 {
    ghost text = { decimal_of };

    fn print(self, line: &mut Line) {
        line.push_number(self);
    }
}

impl Printed for f64 {
    ghost text = { float_text };

    fn print(self, line: &mut Line) {
        line.push_float(self);
    }
}

impl<T: Printed> Printed for Option<T> {
    ghost text = { optional_text T.text };

    fn print(self, line: &mut Line) {
        match self {
            Some(x) => x.print(line),
            None => line.push(b"none"),
        }
    }
}

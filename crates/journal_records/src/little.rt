// Numbers in little-endian order, at any place of a slice of bytes, as `le_at` has it for any list and
// any place. A byte past the end of the slice counts as 0.
ghost use Rattle.std.specs.Prelude.{ℕ, ◌≡◌, ◌+◌, ◌<◌, length, slice_index};
ghost use Rattle.journal_records.specs.Little.{byte_at, le_at, float_at, flag};

// The byte at a place.
pub fn byte(bytes: &[u8], at: usize) -> u8
    ensures { result ≡ byte_at bytes.now at }
{
    bytes.get(at).copied().unwrap_or(0)
}

// Whether a flag is set.
pub fn flag_set(n: u8) -> bool
    ensures { result ≡ flag n }
{
    n == 1
}

// N bytes, of which these are there. It is a function of its own and cold, so that the usual case of
// `bytes_at` is compiled to two tests and one load.
#[cold]
#[inline(never)]
fn filled_up<const N: usize>(there: &[u8]) -> [u8; N]
    requires { length there.now < N }
    ensures { (k : ℕ) → k < N → slice_index result k ≡ byte_at there.now k }
{
    let mut bytes = [0; N];
    bytes[..there.len()].copy_from_slice(there);
    bytes
}

// The N bytes from a place on, for any N.
fn bytes_at<const N: usize>(bytes: &[u8], at: usize) -> [u8; N]
    ensures { (k : ℕ) → k < N → slice_index result k ≡ byte_at bytes.now (at + k) }
{
    match bytes.get(at..) {
        Some(rest) => match rest.first_chunk::<N>() {
            Some(all) => *all,
            None => filled_up(rest),
        },
        None => [0; N],
    }
}

// Each type has a name of its own: a trait over the three would be longer than they are.
pub fn le16(bytes: &[u8], at: usize) -> u16
    ensures { result ≡ le_at bytes.now at 2 }
{
    u16::from_le_bytes(bytes_at(bytes, at))
}

pub fn le32(bytes: &[u8], at: usize) -> u32
    ensures { result ≡ le_at bytes.now at 4 }
{
    u32::from_le_bytes(bytes_at(bytes, at))
}

pub fn le64(bytes: &[u8], at: usize) -> u64
    ensures { result ≡ le_at bytes.now at 8 }
{
    u64::from_le_bytes(bytes_at(bytes, at))
}

// Which pattern a NaN has is the program's choice.
pub fn f64_at(bytes: &[u8], at: usize) -> f64
    ensures { result ≡ float_at bytes.now at }
{
    floats::double(le64(bytes, at))
}

// Bit patterns of binary32 and binary64, each as the other's with the same value. Every NaN becomes
// the quiet one with a clear sign and no other digit set.
#![tactic(auto)]

ghost use Rattle.std.specs.Prelude.{◌≡◌, ◌<◌, ◌^◌};
ghost use Rattle.binary32.specs.Patterns.{widen_of, narrow_of};
ghost use Rattle.binary32.specs.Guess.{Guessed};

use floats::{INF, MINUS_ZERO, PLACE};

// The pattern of binary64 with the value of a pattern of binary32. By hand: the library's
// conversions that let a NaN through test for it at each step, and `narrow` got slower by them.
pub fn widen(pattern: u32) -> u64
    ensures { result ≡ widen_of pattern }
{
    if pattern % 0x8000_0000 > 0x7f80_0000 {
        return 0x7ff8_0000_0000_0000;
    }
    let number = f32::from_bits(pattern);
    f64::to_bits(number as f64)
}

// The only pattern of binary32 that can have the value of a pattern of binary64, both without their
// signs. The caller tests whether it has. By hand: the library's `nearest_f64_to_f32` rounds in more
// steps than these three cases, and the test is needed after it too.
fn guess(bits: u64) -> u64
    requires { bits < 2 ^ 63 }
    ensures { Guessed bits result }
{
    let exponent = bits / PLACE;
    if exponent >= 1151 {
        return 0x7f80_0000;
    }
    if exponent >= 897 {
        return bits / 0x2000_0000 - 0x1_c000_0000;
    }
    if exponent >= 874 {
        return (PLACE + bits % PLACE) >> (926 - exponent);
    }
    0
}

// The pattern of binary32 with the value of a pattern of binary64, if there is one.
pub fn narrow(pattern: u64) -> Option<u32>
    ensures { result ≡ narrow_of pattern }
{
    let bits = pattern % MINUS_ZERO;
    if bits > INF {
        return Some(0x7fc0_0000);
    }
    let short = (pattern / MINUS_ZERO * 0x8000_0000 + guess(bits)) as u32;
    (widen(short) == pattern).then_some(short)
}

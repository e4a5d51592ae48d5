// Doubles from their bit patterns, and the laws of NaN that every crate uses in which a float is
// tested (proofs/Nan).
//
// Bit 63 is the sign, bits 52 to 62 are the exponent field, and bits 0 to 51 are the stored digits.
#![tactic(auto)]

ghost use Rattle.std.specs.Prelude.{◌≡◌};
ghost use Rattle.std.specs.Float.{binary64};
ghost use Rattle.std.specs.Float.Ieee.{of_bits};

use std::num::f64_from_bits_with_nan;

// 2 ^ 52: the place of the exponent field, and of the digit that a normal number does not store.
pub const PLACE: u64 = 0x10_0000_0000_0000;

// The patterns of -0, which has the sign alone, and of the infinity above zero.
pub const MINUS_ZERO: u64 = 0x8000_0000_0000_0000;

pub const INF: u64 = 0x7ff0_0000_0000_0000;

// The double of a bit pattern. A pattern above the infinity's, its sign left out, is a NaN's, and a
// NaN is given for it: which pattern that has is the program's choice.
pub fn double(b: u64) -> f64
    ensures { result ≡ of_bits binary64 b }
{
    f64_from_bits_with_nan(b)
}

// The square root of fmath.rs. Every operation is IEEE 754's on binary64, one rounding each, and
// all NaNs count as one value.
//
// A number above zero is brought to the form a * 2 ^ 52 * 4 ^ k with an a of 53 or 54 binary
// digits. Its root is 2 ^ k times the root of a * 2 ^ 52, and the whole number g nearest to that
// has the 53 digits that binary64 keeps.
// g is guessed in floats, of which nothing is proved, and then moved to its place by exact tests.
#![tactic(auto)]

ghost use Rattle.std.specs.Prelude.{◌≡◌, ◌+◌, ◌*◌, ◌/◌, ◌^◌, ◌≤◌, ◌<◌, leb, ltb};
ghost use Rattle.root.specs.Root.{root_of};
ghost use Rattle.root.specs.Steps.{Normed, NearRoot, RootBits};

use floats::{INF, MINUS_ZERO, PLACE};

// The pattern of 1.
const ONE: u64 = 0x3ff0_0000_0000_0000;

#[derive(Clone, Copy)]
struct Moved {
    m: u64,
    up: u64,
}

// t moved up until its top bit is bit 52.
fn normed(t: u64) -> Moved
    requires { (0 < t) × (t < 2 ^ 52) }
    ensures { Normed t result.m result.up }
{
    let up = t.leading_zeros() as u64 - 11;
    Moved { m: t << up, up }
}

// x * y / 2 ^ 52, cut to a whole number, from the halves of x and y: the product itself may have
// 108 binary digits.
fn high(x: u64, y: u64) -> u64
    requires { (x ≤ 2 ^ 54) × (y ≤ 2 ^ 54) }
    ensures { result ≡ x * y / 2 ^ 52 }
{
    let xh = x / 0x400_0000;
    let xl = x % 0x400_0000;
    let yh = y / 0x400_0000;
    let yl = y % 0x400_0000;
    let middle = xh * yl + xl * yh + xl * yl / 0x400_0000;
    xh * yh + middle / 0x400_0000
}

// Whether g is above the root of a * 2 ^ 52 by a half or more.
fn too_large(g: u64, a: u64) -> bool
    requires { (0 < g) × (g ≤ 2 ^ 53) }
    ensures { result ≡ leb (a * 2 ^ 52 + g) (g * g) }
{
    a <= high(g, g - 1)
}

// Whether g is below the root of a * 2 ^ 52 by a half or more.
fn too_small(g: u64, a: u64) -> bool
    requires { g ≤ 2 ^ 53 }
    ensures { result ≡ ltb (g * g + g) (a * 2 ^ 52) }
{
    high(g, g + 1) < a
}

// A guess at the root of m * 2 ^ (52 + odd), for an m whose top bit is bit 52. `number` is that
// times 2 ^ -104, from 1 up to 4. To take half its pattern from a constant halves the exponent and
// turns its sign, which is 1 / root but for some hundredths; three steps of Newton's method, and a
// last one for the root itself, bring it to the last digit or next to it. The promise says only how
// large it is: whatever it is, `lowered` and `raised` find the right number from there.
fn guess(m: u64, odd: u64) -> u64
    requires { odd ≤ 1 }
    ensures { (0 < result) × (result ≤ 2 ^ 53) }
{
    let b = ONE + odd * PLACE + m % PLACE;
    let number = f64::from_bits(b);
    let half = 0.5 * number;
    let r0 = f64::from_bits(0x5fe6_eb50_c7b5_37a9 - b / 2);
    let r1 = r0 * (1.5 - half * r0 * r0);
    let r2 = r1 * (1.5 - half * r1 * r1);
    let r3 = r2 * (1.5 - half * r2 * r2);
    let s = number * r3;
    let y = s + 0.5 * r3 * (number - s * s);
    if y.is_nan() {
        return PLACE;
    }
    PLACE + y.to_bits() % PLACE
}

// g moved down until it is not too large.
fn lowered(g: u64, a: u64) -> u64
    requires { (0 < g) × (g ≤ 2 ^ 53) × (0 < a) }
    ensures { (result ≤ 2 ^ 53) × (result * result < a * 2 ^ 52 + result) }
{
    let mut r = g;
    while too_large(r, a) {
        r -= 1;
    }
    r
}

// g, which is not too large, moved up until it is not too small.
fn raised(g: u64, a: u64) -> u64
    requires { (g ≤ 2 ^ 53) × (g * g < a * 2 ^ 52 + g) × (a < 2 ^ 54) }
    ensures { NearRoot (a * 2 ^ 52) result }
{
    let mut r = g;
    while too_small(r, a) {
        r += 1;
    }
    r
}

// The pattern of the root of m * 2 ^ (e - 2148), for an m whose top bit is bit 52.
fn pattern(m: u64, e: u64) -> u64
    requires { (2 ^ 52 ≤ m) × (m < 2 ^ 53) × (1022 ≤ e) × (e < 3120) }
    ensures { RootBits m e result }
{
    let odd = e % 2;
    let a = m * (1 + odd);
    let g = raised(lowered(guess(m, odd), a), a);
    (e / 2 - 26) * PLACE + g
}

// The square root, rounded to the nearest; of the infinity, of +0 and of -0 the argument itself,
// and of a NaN and of what is below zero a NaN.
// By hand: 01-scope.md asks for a root that is worked out from the bits, not for the processor's.
// Which pattern a NaN has is the program's choice.
pub fn sqrt(x: f64) -> f64
    ensures { result ≡ root_of x }
{
    if x.is_nan() {
        return x;
    }
    let bits = x.to_bits();
    if bits == MINUS_ZERO {
        return x;
    }
    if MINUS_ZERO < bits {
        return f64::NAN;
    }
    if bits == 0 {
        return x;
    }
    if bits == INF {
        return x;
    }
    let field = bits / PLACE;
    let digits = bits % PLACE;
    if field == 0 {
        let n = normed(digits);
        f64::from_bits(pattern(n.m, 1074 - n.up))
    } else {
        f64::from_bits(pattern(PLACE + digits, field + 1073))
    }
}

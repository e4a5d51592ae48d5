// Metres as whole millimetres, worked out from the bits of the double.
#![tactic(auto)]

ghost use Rattle.std.specs.Prelude.{◌≡◌, ◌*◌, ◌^◌, ◌<◌};
ghost use Rattle.margin.specs.Margin.{nearest_whole, far_of, millis_of, margin_of};

use std::cmp::Ordering;

#[derive(Clone, Copy, PartialEq, Eq)]
pub enum Margin {
    NoMargin,
    PlusFar,
    MinusFar,
    Millis(i32),
}

// The most millimetres that are printed; more are far.
const MOST: u64 = 999_999;

// The parts of a double's bits: the sign is the highest, the exponent has 11, and the fraction 52.
const SIGN: u64 = 1 << 63;

const LEADING: u64 = 1 << 52;

// The exponent of 1024 metres, and that of a fraction whose last bit is a metre.
const KILOMETRE: u64 = 1033;

const METRE: u64 = 1075;

fn far_of(minus: bool) -> Margin
    ensures { result ≡ far_of minus }
{
    if minus {
        Margin::MinusFar
    } else {
        Margin::PlusFar
    }
}

fn millis_of(minus: bool, n: u64) -> Margin
    ensures { result ≡ millis_of minus n }
{
    if n > MOST {
        return far_of(minus);
    }
    let z = n as i32;
    if minus {
        Margin::Millis(-z)
    } else {
        Margin::Millis(z)
    }
}

// Nearer to n, nearer to the number above it, or just between them: then to the even one.
fn nearest_whole(num: u64, den: u64) -> u64
    requires { (num < 2 ^ 63) × (0 < den) }
    ensures { result ≡ nearest_whole num den }
{
    let n = num / den;
    let below = num % den;
    match below.cmp(&(den - below)) {
        Ordering::Less => n,
        Ordering::Greater => n + 1,
        Ordering::Equal => if n % 2 == 0 { n } else { n + 1 },
    }
}

// m / 2^k metres in millimetres.
fn millis(m: u64, k: u64) -> u64
    requires { (m < 2 ^ 53) × (0 < k) }
    ensures { result ≡ nearest_whole (m * 1000) (2 ^ k) }
{
    if k > 63 {
        return 0;
    }
    nearest_whole(m * 1000, 1 << k)
}

// A margin in metres: none for NaN, far where its rounded millimetres pass 999999.
// (From 1024 m on that is known without working them out. Promised by its name as well as by From.)
pub fn margin_of(x: f64) -> Margin
    ensures { result ≡ margin_of x }
{
    if x.is_nan() {
        return Margin::NoMargin;
    }
    let bits = x.to_bits();
    let minus = bits >= SIGN;
    let exponent = bits % SIGN / LEADING;
    let fraction = bits % LEADING;
    if exponent >= KILOMETRE {
        return far_of(minus);
    }
    if exponent == 0 {
        return millis_of(minus, millis(fraction, METRE - 1));
    }
    millis_of(minus, millis(fraction + LEADING, METRE - exponent))
}

impl From<f64> for Margin {
    ghost from_gives = { λ x m. m ≡ margin_of x };

    fn from(x: f64) -> Margin {
        margin_of(x)
    }
}

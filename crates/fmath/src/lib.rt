// The float helpers of fmath.rs. Every operation is IEEE 754's on binary64, one rounding each, and
// all NaNs count as one value. `is_finite` and the special values are the library's; the square
// root is worked out from the bits (the crate `root`).
#![tactic(auto)]

ghost use Rattle.std.specs.Prelude.{◌≡◌, true, false, not};
ghost use Rattle.std.specs.Float.{inf, nan as Ieee·nan};
ghost use Rattle.std.specs.Float.Ieee.Scale.{finite};
ghost use Rattle.fmath.specs.Float.{min_of, max_of, clamp_of, all_finite, norm_of};

pub use root::sqrt;

// ---- special values

pub fn infinity() -> f64
    ensures { result ≡ inf false }
{
    f64::INFINITY
}

pub fn minus_infinity() -> f64
    ensures { result ≡ inf true }
{
    f64::NEG_INFINITY
}

// A NaN. Which of its many patterns it has is the machine's choice; all of them count as one value.
pub fn nan() -> f64
    ensures { result ≡ Ieee·nan }
{
    f64::NAN
}

// ---- finite

// Neither a NaN nor an infinity.
pub fn is_finite(x: f64) -> bool
    ensures { result ≡ finite x }
{
    x.is_finite()
}

// Whether all elements are finite; of none they are.
pub fn all_finite(v: &[f64]) -> bool
    ensures { result ≡ all_finite v.now }
{
    v.iter().all(|&x| is_finite(x))
}

// Whether some element is not finite.
pub fn some_bad(v: &[f64]) -> bool
    ensures { result ≡ not (all_finite v.now) }
{
    !all_finite(v)
}

// ---- order

// a if it is less, and b otherwise: of equal zeros, and where one of the two is a NaN, b.
// By hand: the library's `min` gives a number beside a NaN, and leaves open which of equal zeros.
// Which pattern a NaN has is the program's choice.
pub fn min(a: f64, b: f64) -> f64
    ensures { result ≡ min_of a b }
{
    if a < b { a } else { b }
}

// a if it is greater, and b otherwise, of equal zeros too; a NaN is ignored, and of two NaNs the
// answer is one.
// By hand: the library's `max` leaves open which of equal zeros; `max_of` says b.
// Which pattern a NaN has is the program's choice.
pub fn max(a: f64, b: f64) -> f64
    ensures { result ≡ max_of a b }
{
    if b.is_nan() {
        return a;
    }
    if a > b { a } else { b }
}

// By hand: the library's `clamp` asks for lo <= hi, and `clamp_of` says which of equal ones.
// Which pattern a NaN has is the program's choice.
pub fn clamp(x: f64, lo: f64, hi: f64) -> f64
    ensures { result ≡ clamp_of x lo hi }
{
    max(lo, min(x, hi))
}

// ---- norm

// The Euclidean norm of the first n components, or of all where there are fewer, added up by rising
// index.
// Which pattern a NaN has is the program's choice.
pub fn norm(v: &[f64], n: usize) -> f64
    ensures { result ≡ norm_of v.now n }
{
    let mut sum = 0.0;
    for x in v.iter().take(n) {
        sum += x * x;
    }
    sqrt(sum)
}

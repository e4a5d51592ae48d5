// Rows of eight components.
ghost use Rattle.std.specs.Prelude.{◌≡◌, ℕ, ◌<◌, min};
ghost use Rattle.lictor_core.specs.Sizes.{max_d, max_pos};
ghost use Rattle.lictor_core.specs.Initial.{zeros};
ghost use Rattle.lictor_core.specs.Rows.{RowBy, taken_row};

use crate::chunk::{MAX_D, MAX_POS};

// A row of zeros.
#[tactic(auto, unfolding(crate::specs::Initial::zeros, crate::proofs::Literals::literal))]
pub fn no_row() -> [f64; MAX_D]
    ensures { result ≡ zeros max_d }
{
    [0.0; MAX_D]
}

// The loops over a row, here and above, go over all places and test each: such a loop is
// unrolled, and the row stays in registers. Up to n, the compiler would call memcpy.

// `old` with its first n places given by `f`, as far as there is room.
pub fn first_by<F: Fn(usize) -> f64>(old: [f64; MAX_POS], n: usize, f: F) -> [f64; MAX_POS]
    requires callable { (i : ℕ) → i < min n max_pos → F.pre f i }
    ensures { RowBy (F.post f) old (min n max_pos) result }
{
    let mut out = old;
    for at in 0..MAX_POS {
        if at < n {
            out[at] = f(at);
        }
    }
    out
}

// The first n of a list, as far as there are so many and room for them (copy_row).
// Which pattern a NaN has is the program's choice.
#[tactic(auto, unfolding(crate::specs::Rows::taken_row))]
pub fn taken(s: &[f64], old: [f64; MAX_POS], n: usize) -> [f64; MAX_POS]
    ensures { result ≡ taken_row s.now old n }
{
    first_by(old, n.min(s.len()), |at| s[at])
}

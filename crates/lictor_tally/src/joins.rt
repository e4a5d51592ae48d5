// The rules by which the lists of two tallies are joined (request 3): a sum, the larger.
ghost use Rattle.std.specs.Prelude.{◌≡◌};
ghost use Rattle.lictor_tally.specs.Join.{sum_each, max_each};

use lictor_core::scores::NFEAT;
use std::array;

// (A `for`, as in count_bits.)
pub fn sum_each<const N: usize>(mut earlier: [u32; N], later: [u32; N]) -> [u32; N]
    ensures { result ≡ sum_each earlier.entry later.entry }
{
    for k in 0..N {
        earlier[k] = earlier[k].saturating_add(later[k]);
    }
    earlier
}

// Which pattern a NaN has is the program's choice.
pub fn max_each(earlier: [f64; NFEAT], later: [f64; NFEAT]) -> [f64; NFEAT]
    ensures { result ≡ max_each earlier later }
{
    array::from_fn(|j| fmath::max(earlier[j], later[j]))
}

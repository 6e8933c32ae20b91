ghost use Rattle.std.specs.Prelude.{◌≡◌};
ghost use Rattle.lane_kernels.specs.Numbers.{ones_before};

use std::simd::prelude::*;

/// How many lanes have a 1.
pub fn count(mask: u64x8) -> u32
    ensures { result ≡ ones_before mask 512 }
{
    let words = mask.to_array();
    let mut total = 0;
    for word in 0..8 {
        total += words[word].count_ones();
    }
    total
}

// A word of bits from a test of each index.
ghost use Rattle.std.specs.Prelude.{◌≡◌, ℕ, ◌^◌, ◌≤◌, ◌<◌, Bool};
ghost use Rattle.automaton.specs.Bits.{of_bits};
ghost use Rattle.automaton.specs.inner.Sizes.{word_bits};

use crate::bits::set_bits;

// The word whose bit k is f(k), for each k below the width; its other bits are 0.
pub(crate) fn gather<F: Fn(u64) -> bool>(width: u64, f: F) -> u64
    requires width_fits { width ≤ word_bits }
    requires callable { (k : ℕ) → k < width → F.pre f k }
    ensures exact { (g : ℕ → Bool) → ((k : ℕ) (b : Bool) → k < width → F.post f k b → b ≡ g k) → result ≡ of_bits g width }
    ensures below { result < 2 ^ width }
{
    let mut word: u64 = 0;
    for k in 0..width {
        word = set_bits(word, k, u64::from(f(k)));
    }
    word
}

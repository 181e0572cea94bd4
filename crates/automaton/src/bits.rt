// Single bits of a word.
ghost use Rattle.std.specs.Prelude.{◌≡◌, ◌+◌, ◌*◌, ◌<◌, ◌^◌};
ghost use Rattle.automaton.specs.Bits.{bit};
ghost use Rattle.automaton.specs.inner.Sizes.{word_bits};

// The bits of a word.
pub(crate) const WORD_BITS: usize = 64;

// Whether x has bit k.
#[tactic(auto, unfolding(crate::specs::Bits::bit))]
pub(crate) fn test_bit(x: u64, k: u64) -> bool
    requires { k < word_bits }
    ensures { result ≡ bit x k }
{
    (x >> k) % 2 == 1
}

// x, which has only bits below k, with further bits from bit k on.
pub(crate) fn set_bits(x: u64, k: u64, bits: u64) -> u64
    requires { (k < word_bits) × (bits * 2 ^ k < 2 ^ word_bits) × (x < 2 ^ k) }
    ensures { result ≡ bits * 2 ^ k + x }
{
    x | (bits << k)
}

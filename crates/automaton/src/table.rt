// The table of the valuations that the letters make.
ghost use Rattle.std.specs.Prelude.{◌≡◌, ◌+◌, ◌*◌, ◌/◌, ◌≤◌, ◌<◌, slice_range};
ghost use Rattle.automaton.specs.Limits.{letter_limit};
ghost use Rattle.automaton.specs.inner.Sizes.{vector_limit, pair_limit};

use crate::bits::{set_bits, test_bit};
use crate::limits::{ENTRY_LIMIT, PAIR_LIMIT, TABLE_SIZE};

// The table: entry letter * PAIR_LIMIT + k is the valuation that the letter makes from 2 * k and from 2 * k + 1.
#[derive(Clone, Copy)]
pub(crate) struct Table<'a> {
    pub(crate) entries: &'a [u8; TABLE_SIZE],
    pub(crate) vectors: u64,
    pub(crate) letters: usize,
    ghost fits: { (vectors ≤ vector_limit) × (letters ≤ letter_limit) },
}

impl<'a> Table<'a> {
    ghost use Rattle.reader.specs.Formula.{Formula};
    ghost use Rattle.automaton.specs.State.{after};
    ghost use Rattle.automaton.specs.inner.Table.{TableOf};

    // The entries of a letter.
    pub(crate) fn row(self, letter: usize) -> &'a [u8]
        requires { letter < self.letters }
        ensures { result.now ≡ slice_range self.entry.entries.now (letter * pair_limit) (letter * pair_limit + self.entry.vectors / 2) }
    {
        let first = letter * PAIR_LIMIT;
        let pairs = (self.vectors / 2) as usize;
        let entries = self.entries;
        &entries[first..first + pairs]
    }

    // The state after a letter: it holds 2 * k and 2 * k + 1 where the old one holds the valuation that the table has for the letter and k.
    pub(crate) fn successor(self, letter: usize, state: u64) -> u64
        requires { letter < self.letters }
        ensures { (φ : Formula) → TableOf φ self.entry → result ≡ after φ state letter }
    {
        let first = letter * PAIR_LIMIT;
        let mut r: u64 = 0;
        for k in 0..self.vectors / 2 {
            let v = self.entries[first + k as usize] % ENTRY_LIMIT;
            let pair = 3 * u64::from(test_bit(state, u64::from(v)));
            r = set_bits(r, 2 * k, pair);
        }
        r
    }
}

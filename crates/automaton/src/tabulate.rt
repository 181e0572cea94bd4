// The table of the valuations that the letters make.
ghost use Rattle.std.specs.Prelude.{◌≡◌, ℕ, ◌+◌, ◌*◌, ◌^◌, ◌-◌, ◌≤◌, ◌<◌, length, get_or};
ghost use Rattle.reader.specs.Formula.{Formula};
ghost use Rattle.automaton.specs.Limits.{letter_limit};
ghost use Rattle.automaton.specs.inner.Sizes.{pair_limit};
ghost use Rattle.automaton.specs.Bits.{bit, of_bits};
ghost use Rattle.automaton.specs.inner.Representation.{Represents, Tabulates};

use crate::limits::{COORDINATE_LIMIT, PAIR_LIMIT, TABLE_SIZE};
use crate::tree::Tree;

impl<'a> Tree<'a> {
    // The pairs of valuations that differ in coordinate 0 only.
    fn pairs(&self) -> usize
        ensures exact { result ≡ 2 ^ (self.now.width - 1) }
        ensures few { result ≤ pair_limit }
    {
        1 << (self.width - 1)
    }

    // Fills the row of a letter, which begins at `first`, by the valuations that the coordinates' words make from every second valuation.
    fn fill_row(&self, words: &[u64; COORDINATE_LIMIT], first: usize, table: &mut [u8])
        requires { first + pair_limit ≤ length table.old }
        ensures row { (k : ℕ) → k < 2 ^ (self.now.width - 1)
            → get_or table.new (first + k) 0 ≡ of_bits (λ j. bit (get_or words.now j 0) (2 * k)) self.now.width }
        ensures front { (k : ℕ) → k < first → get_or table.new k 0 ≡ get_or table.old k 0 }
    {
        for k in 0..self.pairs() {
            let made = self.vector_from(words, (2 * k) as u64);
            table[first + k] = made as u8;
        }
    }

    // Fills the table: entry letter * PAIR_LIMIT + k is the valuation that the letter makes from 2 * k. From 2 * k + 1 it makes the same, since the next
    // position's coordinate 0 is read by no operator. A letter's words are made once.
    pub(crate) fn tabulate(&self, letters: usize, table: &mut [u8; TABLE_SIZE])
        requires { letters ≤ letter_limit }
        ensures { (φ : Formula) → Represents self.now.nodes.now φ → Tabulates φ letters table.new }
    {
        for a in 0..letters {
            let words = self.letter_words(a as u64);
            self.fill_row(&words, a * PAIR_LIMIT, table);
        }
    }
}

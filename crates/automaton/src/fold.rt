// Satisfaction of a formula by a list of letters.
ghost use Rattle.std.specs.Prelude.{◌≡◌};
ghost use Rattle.reader.specs.Formula.{Formula};
ghost use Rattle.automaton.specs.Bits.{bit};
ghost use Rattle.automaton.specs.inner.Representation.{Represents};
ghost use Rattle.automaton.specs.inner.Fold.{valuation};

use crate::bits::test_bit;
use crate::tree::Tree;

impl<'a> Tree<'a> {
    // Coordinate 0 of the valuation that the letters make from the end valuation, the last letter first.
    #[tactic(auto, unfolding(crate::specs::inner::Fold::valuation))]
    pub(crate) fn satisfied(&self, letters: &[u8]) -> bool
        ensures { (φ : Formula) → Represents self.now.nodes.now φ → result ≡ bit (valuation φ letters.now) 0 }
    {
        let mut v = self.end_vector();
        for i in (0..letters.len()).rev() {
            v = self.present_vector(u64::from(letters[i]), v);
        }
        test_bit(v, 0)
    }
}

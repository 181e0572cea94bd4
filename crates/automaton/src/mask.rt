// The mask of a condition from its nodes.
ghost use Rattle.std.specs.Prelude.{◌≡◌, ◌≤◌};
ghost use Rattle.reader.specs.Formula.{Formula};
ghost use Rattle.automaton.specs.Limits.{number_limit};
ghost use Rattle.automaton.specs.Bits.{of_bits};
ghost use Rattle.automaton.specs.Valuation.{value};
ghost use Rattle.automaton.specs.inner.Representation.{Represents};

use crate::gather::gather;
use crate::tree::Tree;

impl<'a> Tree<'a> {
    // The mask: bit x says whether input number x, below `inputs`, has the condition.
    pub(crate) fn condition_mask(&self, inputs: usize) -> u16
        requires { inputs ≤ number_limit }
        ensures { (κ : Formula) → Represents self.now.nodes.now κ → result ≡ of_bits (λ x. value κ 1 x 0) inputs }
    {
        gather(inputs as u64, |x| self.root_value(x)) as u16
    }
}

// The trial call: whether a list of letters satisfies a rule.
ghost use Rattle.automaton.specs.Trial.{Tried};

use crate::alphabet::{first_over, power};
use crate::texts::{read_text, test_sizes};
use crate::tree::Tree;
use reader::limits::NODE_LIMIT;
use reader::nodes::Node;
use reader::refusal::{Refusal, Subject};

// Tries a rule on a list of letters, one a byte: whether the list satisfies the rule, or a refusal.
pub fn try_rule(i: usize, o: usize, text: &[u8], letters: &[u8]) -> Result<bool, Refusal>
    ensures { Tried i o text.now letters.now result }
{
    test_sizes(i, o, text)?;
    let mut nodes = [Node::Constant(false); NODE_LIMIT];
    let count = read_text(Subject::Rule, i, o, text, &mut nodes)?;
    if let Some(k) = first_over(letters, power(i + o)) {
        return Err(Refusal::Value(k));
    }
    let tree = Tree::of(&nodes[..count]);
    Ok(tree.satisfied(letters))
}

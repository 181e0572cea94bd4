// The condition call: the mask of a condition.
ghost use Rattle.automaton.specs.Condition.{Conditioned};

use crate::alphabet::power;
use crate::texts::read_text;
use crate::tree::Tree;
use reader::limits::NODE_LIMIT;
use reader::nodes::Node;
use reader::refusal::{Refusal, Subject};

// Reads a condition and judges every input number by it: the mask, bit x for input number x, or a refusal.
pub fn read_condition(i: usize, text: &[u8]) -> Result<u16, Refusal>
    ensures { Conditioned i text.now result }
{
    let mut nodes = [Node::Constant(false); NODE_LIMIT];
    let count = read_text(Subject::Condition, i, 0, text, &mut nodes)?;
    let tree = Tree::of(&nodes[..count]);
    let mask = tree.condition_mask(power(i));
    if mask == 0 {
        return Err(Refusal::Unsatisfiable);
    }
    Ok(mask)
}

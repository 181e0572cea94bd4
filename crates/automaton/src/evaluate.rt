// The value of each node of a formula, for all valuations at once.
ghost use Rattle.std.specs.Prelude.{◌≡◌, ◌≤◌, length};
ghost use Rattle.reader.specs.Limits.{node_limit};
ghost use Rattle.automaton.specs.inner.Sizes.{vector_limit};
ghost use Rattle.automaton.specs.Bits.{bit, of_bits};
ghost use Rattle.automaton.specs.inner.Evaluation.{left_of, node_word, Evaluated};

use crate::bits::{WORD_BITS, test_bit};
use crate::coordinates::{ALL, coordinate};
use reader::limits::NODE_LIMIT;
use reader::nodes::{BinaryOp, Node, UnaryOp};

// Whether the letter has bit `argument`, which may be any number.
fn has_name(letter: u64, argument: usize) -> bool
    ensures { result ≡ bit letter argument }
{
    argument < WORD_BITS && test_bit(letter, argument as u64)
}

// All valuations where bit `argument` of the letter is 1, else none. A product, and no branch: the bit differs from letter to letter, so that a branch on it
// would often be foreseen wrongly.
fn name_word(letter: u64, argument: usize) -> u64
    ensures { result ≡ of_bits (λ v. bit letter argument) vector_limit }
{
    ALL * u64::from(has_name(letter, argument))
}

// A node's value for each valuation, from its operands'.
#[tactic(auto, unfolding(crate::specs::inner::Evaluation::node_word))]
fn node_word(node: Node, letter: u64, left: u64, right: u64) -> u64
    ensures { result ≡ node_word node letter left right }
{
    match node {
        Node::Constant(false) => 0,
        Node::Constant(true) => ALL,
        Node::Name(bit) => name_word(letter, bit),
        Node::Unary(UnaryOp::Not, _) => right ^ ALL,
        Node::Unary(UnaryOp::Next | UnaryOp::WeakNext, k) => coordinate(k),
        Node::Unary(UnaryOp::Eventually, k) => right | coordinate(k),
        Node::Unary(UnaryOp::Always, k) => right & coordinate(k),
        Node::Binary(BinaryOp::Until, _, k) => right | (left & coordinate(k)),
        Node::Binary(BinaryOp::Release, _, k) => right & (left | coordinate(k)),
        Node::Binary(BinaryOp::And, _, _) => left & right,
        Node::Binary(BinaryOp::Or, _, _) => left | right,
        Node::Binary(BinaryOp::Implies, _, _) => (left ^ ALL) | right,
    }
}

// The node of the left operand of an infix operator's node; 0 for any other, whose word no operator reads: an `Option` would be one more test for nothing.
fn left_of(node: Node) -> usize
    ensures { result ≡ left_of node }
{
    match node {
        Node::Binary(_, left, _) => left.saturating_sub(1),
        _ => 0,
    }
}

// Each node's value for each valuation, given the letter.
pub(crate) fn evaluate(nodes: &[Node], letter: u64) -> [u64; NODE_LIMIT]
    requires { length nodes.now ≤ node_limit }
    ensures { Evaluated nodes.now letter result (length nodes.now) }
{
    let mut words = [0u64; NODE_LIMIT];
    for (i, &node) in nodes.iter().enumerate() {
        let left = words.get(left_of(node)).copied().unwrap_or(0);
        let right = words.get(i.saturating_sub(1)).copied().unwrap_or(0);
        words[i] = node_word(node, letter, left, right);
    }
    words
}

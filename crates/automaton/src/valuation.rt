// Valuations of the temporal subformulas: the end's, and the one that a letter makes from the next position's.
ghost use Rattle.std.specs.Prelude.{◌≡◌, ◌<◌, get_or};
ghost use Rattle.reader.specs.Formula.{Formula};
ghost use Rattle.automaton.specs.inner.Sizes.{coordinate_limit, vector_limit};
ghost use Rattle.automaton.specs.Bits.{bit, of_bits};
ghost use Rattle.automaton.specs.Valuation.{value, present, end_vector};
ghost use Rattle.automaton.specs.inner.Representation.{Represents};
ghost use Rattle.automaton.specs.inner.Coordinates.{operator_at, owner_of, owner, end_of, end_bit, Makes};

use crate::bits::test_bit;
use crate::evaluate::evaluate;
use crate::gather::gather;
use crate::limits::COORDINATE_LIMIT;
use crate::tree::Tree;
use reader::nodes::{BinaryOp, Node, UnaryOp};

// The node whose value is the coordinate of the operator at o: of X and N the operand.
#[tactic(auto, unfolding(crate::specs::inner::Coordinates::owner_of))]
fn owner_of(node: Node, o: usize) -> usize
    ensures { result ≡ owner_of node o }
{
    match node {
        Node::Unary(UnaryOp::Next | UnaryOp::WeakNext, _) => o.saturating_sub(1),
        _ => o,
    }
}

// An operator's bit of the end valuation: 1 for N, G and R.
#[tactic(auto, unfolding(crate::specs::inner::Coordinates::end_of))]
fn end_of(node: Node) -> bool
    ensures { result ≡ end_of node }
{
    matches!(
        node,
        Node::Unary(UnaryOp::WeakNext | UnaryOp::Always, _) | Node::Binary(BinaryOp::Release, _, _)
    )
}

impl<'a> Tree<'a> {
    // The node of the operator that has coordinate j. The places are in reach, so the constant never comes.
    fn operator_at(&self, j: usize) -> Node
        requires { j < coordinate_limit }
        ensures { result ≡ operator_at self.now.nodes.now self.now.places j }
    {
        self.nodes
            .get(self.places[j])
            .copied()
            .unwrap_or(Node::Constant(false))
    }

    // The node whose value is coordinate j.
    #[tactic(auto, unfolding(crate::specs::inner::Coordinates::owner))]
    fn owner(&self, j: usize) -> usize
        requires { j < coordinate_limit }
        ensures { result ≡ owner self.now.nodes.now self.now.places j }
    {
        match j {
            0 => self.nodes.len().saturating_sub(1),
            _ => owner_of(self.operator_at(j), self.places[j]),
        }
    }

    // The coordinates' words for one letter: of each the word of the node whose value it is.
    pub(crate) fn letter_words(&self, letter: u64) -> [u64; COORDINATE_LIMIT]
        ensures { (φ : Formula) → Represents self.now.nodes.now φ → Makes φ letter result }
    {
        let words = evaluate(self.nodes, letter);
        let mut made = [0u64; COORDINATE_LIMIT];
        for j in 0..COORDINATE_LIMIT {
            made[j] = words.get(self.owner(j)).copied().unwrap_or(0);
        }
        made
    }

    // The valuation that the coordinates' words make from v: its bit j is bit v of word j.
    pub(crate) fn vector_from(&self, words: &[u64; COORDINATE_LIMIT], v: u64) -> u64
        requires { v < vector_limit }
        ensures exact { result ≡ of_bits (λ j. bit (get_or words.now j 0) v) self.now.width }
        ensures small { result < vector_limit }
    {
        gather(self.width, |j| test_bit(words[j as usize], v))
    }

    // The valuation of a position, from its letter and the valuation v of the next.
    pub(crate) fn present_vector(&self, letter: u64, v: u64) -> u64
        requires { v < vector_limit }
        ensures exact { (φ : Formula) → Represents self.now.nodes.now φ → result ≡ present φ letter v }
        ensures small { result < vector_limit }
    {
        let words = self.letter_words(letter);
        self.vector_from(&words, v)
    }

    // Coordinate j's bit of the end valuation.
    #[tactic(auto, unfolding(crate::specs::inner::Coordinates::end_bit))]
    fn end_bit(&self, j: usize) -> bool
        requires { j < coordinate_limit }
        ensures { result ≡ end_bit self.now.nodes.now self.now.places j }
    {
        j != 0 && end_of(self.operator_at(j))
    }

    // The end valuation.
    pub(crate) fn end_vector(&self) -> u64
        ensures exact { (φ : Formula) → Represents self.now.nodes.now φ → result ≡ end_vector φ }
        ensures small { result < vector_limit }
    {
        gather(self.width, |j| self.end_bit(j as usize))
    }

    // The value of the whole formula at a letter, with the valuation 0 after it.
    pub(crate) fn root_value(&self, letter: u64) -> bool
        ensures { (φ : Formula) → Represents self.now.nodes.now φ → result ≡ value φ 1 letter 0 }
    {
        let words = evaluate(self.nodes, letter);
        let root = self.nodes.len().saturating_sub(1);
        test_bit(words.get(root).copied().unwrap_or(0), 0)
    }
}

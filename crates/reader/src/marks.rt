// What each byte of a text is.
ghost use Rattle.std.specs.Prelude.{◌≡◌, ℕ, [], ◌∷◌};
ghost use Rattle.reader.specs.declared.marks.Kind.TheVariants.{Operand};
ghost use Rattle.reader.specs.Marks.{mark_kind, is_temporal_mark, operand_of, unary_of, binary_of};
ghost use Rattle.reader.specs.inner.Nodes.{unary_op, binary_op, code};

use crate::nodes::{BinaryOp, Node, UnaryOp};

// What a byte is in a text. An infix mark has its level: 1 for U and R, 2 for &, 3 for |, 4 for >.
// The level is a number, no enum, since the grammar counts levels (specs/Grammar.antt).
#[derive(Clone, Copy, PartialEq, Eq, Debug)]
pub enum Kind {
    Operand,
    Prefix,
    Infix(u8),
    Open,
    Close,
    Other,
}

// The kind of a byte, every name and mark being in reach.
#[tactic(auto, unfolding(crate::specs::Marks::mark_kind, crate::specs::Marks::among_of))]
pub(crate) fn mark_kind(b: u8) -> Kind
    ensures { result ≡ mark_kind b }
{
    match b {
        b'0' | b'1' | b'a'..=b'd' | b'p'..=b's' => Kind::Operand,
        b'!' | b'X' | b'N' | b'F' | b'G' => Kind::Prefix,
        b'U' | b'R' => Kind::Infix(1),
        b'&' => Kind::Infix(2),
        b'|' => Kind::Infix(3),
        b'>' => Kind::Infix(4),
        b'(' => Kind::Open,
        b')' => Kind::Close,
        _ => Kind::Other,
    }
}

// Whether a byte is a temporal mark.
#[tactic(auto, unfolding(crate::specs::Marks::is_temporal_mark, crate::specs::Marks::among_of))]
pub(crate) fn is_temporal_mark(b: u8) -> bool
    ensures { result ≡ is_temporal_mark b }
{
    matches!(b, b'X' | b'N' | b'F' | b'G' | b'U' | b'R')
}

// The operator of a prefix mark: ! X N F, else G.
#[tactic(auto, unfolding(crate::specs::Marks::unary_of))]
pub(crate) fn prefix_op(b: u8) -> UnaryOp
    ensures { result ≡ unary_op (unary_of b) }
{
    match b {
        b'!' => UnaryOp::Not,
        b'X' => UnaryOp::Next,
        b'N' => UnaryOp::WeakNext,
        b'F' => UnaryOp::Eventually,
        _ => UnaryOp::Always,
    }
}

// The operator of an infix mark: U R & |, else >.
#[tactic(auto, unfolding(crate::specs::Marks::binary_of))]
pub(crate) fn infix_op(b: u8) -> BinaryOp
    ensures { result ≡ binary_op (binary_of b) }
{
    match b {
        b'U' => BinaryOp::Until,
        b'R' => BinaryOp::Release,
        b'&' => BinaryOp::And,
        b'|' => BinaryOp::Or,
        _ => BinaryOp::Implies,
    }
}

// The node of an operand: a constant, or a name with its letter bit, outputs behind the i inputs.
#[tactic(auto, unfolding(crate::specs::Marks::operand_of, crate::specs::inner::Nodes::code), using(crate::proofs::MarkLaws::operand_byte))]
pub(crate) fn operand_node(b: u8, i: u8) -> Node
    requires { mark_kind b ≡ Operand }
    ensures { (n k : ℕ) → code n k (operand_of i b) ≡ result ∷ [] }
{
    match b {
        b'0' => Node::Constant(false),
        b'1' => Node::Constant(true),
        b'a'..=b'd' => Node::Name(usize::from(b - b'a')),
        _ => Node::Name(usize::from(i) + usize::from(b - b'p')),
    }
}

// The nodes of a formula, which the reader hands to the automaton.

// The prefix operators: ! X N F G.
#[derive(Clone, Copy, PartialEq, Eq, Debug)]
pub enum UnaryOp {
    Not,
    Next,
    WeakNext,
    Eventually,
    Always,
}

// The infix operators: U R & | >.
#[derive(Clone, Copy, PartialEq, Eq, Debug)]
pub enum BinaryOp {
    Until,
    Release,
    And,
    Or,
    Implies,
}

// A node: a constant; a name with its letter bit; a prefix operator with the coordinate that is next at its mark, which a temporal operator takes; or an infix
// operator with the number of nodes up to its left operand, that one included, and the coordinate. The last operand of an operator stands just before it.
// Indices and no `Box`, since the library has no heap.
#[derive(Clone, Copy, PartialEq, Eq, Debug)]
pub enum Node {
    Constant(bool),
    Name(usize),
    Unary(UnaryOp, usize),
    Binary(BinaryOp, usize, usize),
}

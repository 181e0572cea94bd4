// A formula as its nodes, with what is known of them.
ghost use Rattle.std.specs.Prelude.{◌≡◌};
ghost use Rattle.reader.specs.Formula.{Formula};
ghost use Rattle.automaton.specs.inner.Representation.{Represents};
ghost use Rattle.automaton.specs.inner.Coordinates.{Fits};

use crate::limits::COORDINATE_LIMIT;
use crate::operators::{operator_count, operator_nodes};
use reader::nodes::Node;

// The nodes of a formula, for each coordinate of a temporal operator the node that has it, and the number of coordinates.
#[derive(Clone, Copy)]
pub(crate) struct Tree<'a> {
    pub(crate) nodes: &'a [Node],
    // Not Option<usize>: each coordinate from 1 on below the width has a node, so a test for none would be no plainer.
    pub(crate) places: [usize; COORDINATE_LIMIT],
    pub(crate) width: u64,
    ghost fits: { Fits nodes.now places width },
}

impl<'a> Tree<'a> {
    // The tree of the nodes of a formula.
    pub(crate) fn of(nodes: &'a [Node]) -> Tree<'a>
        requires { (φ : Formula) × Represents nodes.now φ }
        ensures { result.nodes.now ≡ nodes.now }
    {
        let width = operator_count(nodes) as u64 + 1;
        Tree {
            nodes,
            places: operator_nodes(nodes),
            width,
        }
    }
}

// The temporal operators among the nodes of a formula.
ghost use Rattle.std.specs.Prelude.{◌≡◌, length};
ghost use Rattle.automaton.specs.inner.Coordinates.{coordinate_of, operators_in, Located};

use crate::limits::COORDINATE_LIMIT;
use reader::nodes::{BinaryOp, Node, UnaryOp};

// The coordinate of a temporal operator's node, and none of any other.
#[tactic(auto, unfolding(crate::specs::inner::Coordinates::coordinate_of))]
fn coordinate_of(node: Node) -> Option<usize>
    ensures { result ≡ coordinate_of node }
{
    match node {
        Node::Unary(UnaryOp::Not, _) => None,
        Node::Unary(_, k) => Some(k),
        Node::Binary(BinaryOp::Until | BinaryOp::Release, _, k) => Some(k),
        _ => None,
    }
}

// For each coordinate the node that has it.
pub(crate) fn operator_nodes(nodes: &[Node]) -> [usize; COORDINATE_LIMIT]
    ensures { Located nodes.now (length nodes.now) result }
{
    let mut places = [0usize; COORDINATE_LIMIT];
    for (i, &node) in nodes.iter().enumerate() {
        if let Some(k) = coordinate_of(node) {
            if k < COORDINATE_LIMIT {
                places[k] = i;
            }
        }
    }
    places
}

// The number of the temporal operators.
pub(crate) fn operator_count(nodes: &[Node]) -> usize
    ensures { result ≡ operators_in nodes.now }
{
    nodes
        .iter()
        .filter(|n| coordinate_of(**n).is_some())
        .count()
}

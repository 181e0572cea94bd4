// The reader's two calls, and the test of a text's length.
ghost use Rattle.std.specs.Prelude.{◌≡◌};
ghost use Rattle.reader.specs.Limits.{too_long};
ghost use Rattle.reader.specs.Vocabulary.{kind_of};
ghost use Rattle.reader.specs.inner.Nodes.{Written};
ghost use Rattle.reader.specs.Reading.{ReadingOf};

use crate::levels::{Reader, TOP_LEVEL};
use crate::limits::{NODE_LIMIT, OPERATOR_LIMIT, TEXT_LIMIT};
use crate::nodes::Node;
use crate::scan::scan;
use crate::size::{node_count, operator_count};
use crate::vocabulary::Vocabulary;

// Why a text has no formula within the limits: it is too long, whatever it is; bad, with the place; or over another limit.
#[derive(Clone, Copy, PartialEq, Eq, Debug)]
pub enum Unreadable {
    TooLong,
    Bad(usize),
    TooManyNodes,
    TooManyOperators,
}

// Whether a text is over the limit of its bytes.
pub fn too_long(text: &[u8]) -> bool
    ensures { result ≡ too_long text.now }
{
    TEXT_LIMIT < text.len()
}

// Reads a text and gives the number of its nodes, but writes none.
pub fn check(text: &[u8], vocabulary: Vocabulary) -> Result<usize, Unreadable>
    ensures { ReadingOf vocabulary.inputs (kind_of vocabulary) text.now result }
{
    if too_long(text) {
        return Err(Unreadable::TooLong);
    }
    if let Err(place) = scan(text, vocabulary) {
        return Err(Unreadable::Bad(place));
    }
    let n = node_count(text);
    if NODE_LIMIT < n {
        return Err(Unreadable::TooManyNodes);
    }
    if OPERATOR_LIMIT < operator_count(text) {
        return Err(Unreadable::TooManyOperators);
    }
    Ok(n)
}

// Reads a text as `check` does, and writes the nodes of a good one in front of `nodes`.
#[tactic(auto, unfolding(crate::specs::inner::Nodes::Written))]
pub fn read(
    text: &[u8],
    vocabulary: Vocabulary,
    nodes: &mut [Node; NODE_LIMIT],
) -> Result<usize, Unreadable>
    ensures reading { ReadingOf vocabulary.inputs (kind_of vocabulary) text.now result }
    ensures nodes { Written vocabulary.inputs (kind_of vocabulary) text.now result nodes.old nodes.new }
{
    let n = check(text, vocabulary)?;
    Reader::new(text, vocabulary.inputs).read(TOP_LEVEL, nodes);
    Ok(n)
}

// Reading a text: the tests that the calls share, and the nodes of its formula.
ghost use Rattle.std.specs.Prelude.{◌≡◌, false, replicate, MatchResult};
ghost use Rattle.reader.specs.declared.refusal.Subject.{Subject};
ghost use Rattle.reader.specs.Limits.{node_limit, too_long};
ghost use Rattle.reader.specs.inner.Nodes.{blank_node};
ghost use Rattle.automaton.specs.Alphabet.{bad_alphabet};
ghost use Rattle.automaton.specs.inner.Opening.{Unopened, OpenedBy};

use crate::alphabet::bad_alphabet;
use reader::limits::NODE_LIMIT;
use reader::nodes::Node;
use reader::reading::{read, too_long};
use reader::refusal::{Refusal, Subject};
use reader::vocabulary::Vocabulary;

// The refusal by the numbers or by the length. The trial tests them before it has an array of nodes, whose zeros are most of what a refused call costs.
pub(crate) fn test_sizes(i: usize, o: usize, text: &[u8]) -> Result<(), Refusal>
    ensures { MatchResult result (λ _. (bad_alphabet i o ≡ false) × (too_long text.now ≡ false))
        (λ x. (subject : Subject) → Unopened subject i o text.now x) }
{
    if bad_alphabet(i, o) {
        return Err(Refusal::Alphabet);
    }
    if too_long(text) {
        return Err(Refusal::TextLength);
    }
    Ok(())
}

// Reads a rule or a condition: the number of its nodes, which are written, or the refusal by the numbers, its length or its reading. The caller has the array:
// handed out by value it would be copied, and there is no heap.
pub(crate) fn read_text(
    subject: Subject,
    i: usize,
    o: usize,
    text: &[u8],
    nodes: &mut [Node; NODE_LIMIT],
) -> Result<usize, Refusal>
    requires { nodes.old ≡ replicate node_limit blank_node }
    ensures { OpenedBy subject i o text.now nodes.new result }
{
    test_sizes(i, o, text)?;
    let vocabulary = Vocabulary::of(subject, i as u8, o as u8);
    read(text, vocabulary, nodes).map_err(|e| e.refusal(subject))
}

// The construction call: the automaton of a rule.
ghost use Rattle.std.specs.Prelude.{◌≡◌, ◌||◌, suc, ◌≤◌, ◌<◌, ltb};
ghost use Rattle.reader.specs.Formula.{Formula, operators};
ghost use Rattle.automaton.specs.Limits.{state_limit, letter_limit};
ghost use Rattle.automaton.specs.inner.Sizes.{coordinate_limit, vector_limit};
ghost use Rattle.automaton.specs.Valuation.{end_vector};
ghost use Rattle.automaton.specs.inner.Representation.{Represents, Tabulates};
ghost use Rattle.automaton.specs.inner.Exploration.{BuiltAutomaton};
ghost use Rattle.automaton.specs.Construction.{short_automaton, Constructed};

use crate::alphabet::power;
use crate::coordinates::start_word;
use crate::explore::list_states;
use crate::fill::{fill_transitions, mark_states};
use crate::limits::TABLE_SIZE;
use crate::states::States;
use crate::table::Table;
use crate::texts::read_text;
use crate::tree::Tree;
use crate::twins::{TwinTable, find_twins};
use reader::limits::NODE_LIMIT;
use reader::nodes::Node;
use reader::refusal::{Refusal, Subject};

// Whether there is no room for n states, or a buffer is too short for them. The letters are bounded by clauses in this file: before there is a table no value
// has them.
fn short_automaton(
    letters: usize,
    room: usize,
    n: usize,
    transitions: &[u8],
    accepting: &[u8],
) -> bool
    requires { (letters ≤ letter_limit) × (n ≤ state_limit) }
    ensures { result ≡ (ltb room n || short_automaton letters n transitions.now accepting.now) }
{
    room < n || transitions.len() < n * letters || accepting.len() < n
}

// The automaton of the formula whose valuations the table holds. Its states are listed, and only where the buffers have room for them are the
// transitions and the flags written. The buffers stand side by side as the caller lends them.
fn build(
    entries: &[u8; TABLE_SIZE],
    width: u64,
    end: u64,
    letters: usize,
    room: usize,
    transitions: &mut [u8],
    accepting: &mut [u8],
) -> Result<usize, Refusal>
    requires { (1 ≤ width) × (width ≤ coordinate_limit) × (end < vector_limit) × (0 < letters) × (letters ≤ letter_limit) }
    ensures { (φ : Formula) → Tabulates φ letters entries.now → width ≡ suc (operators φ) → end ≡ end_vector φ
        → BuiltAutomaton φ letters room transitions.old accepting.old transitions.new accepting.new result }
{
    let vectors = 1u64 << width;
    let table = Table {
        entries,
        vectors,
        letters,
    };
    let twins = find_twins(table);
    let twins = TwinTable {
        table,
        twins: &twins,
    };
    let mut states = States::new(start_word(vectors));
    let Some(n) = list_states(twins, &mut states) else {
        return Err(Refusal::StateCount);
    };
    if short_automaton(letters, room, n, transitions, accepting) {
        return Err(Refusal::Buffer(n));
    }
    fill_transitions(twins, &states, transitions);
    mark_states(&states, end, accepting);
    Ok(n)
}

// The automaton of the formula that the nodes represent.
fn build_nodes(
    nodes: &[Node],
    letters: usize,
    room: usize,
    transitions: &mut [u8],
    accepting: &mut [u8],
) -> Result<usize, Refusal>
    requires represents { (φ : Formula) × Represents nodes.now φ }
    requires letters_nonzero { (0 < letters) × (letters ≤ letter_limit) }
    ensures { (φ : Formula) → Represents nodes.now φ
        → BuiltAutomaton φ letters room transitions.old accepting.old transitions.new accepting.new result }
{
    // first, so that its zeros are written once: a function's entry writes them too, and with a loop in between the compiler keeps both
    let mut table = [0u8; TABLE_SIZE];
    let tree = Tree::of(nodes);
    tree.tabulate(letters, &mut table);
    build(
        &table,
        tree.width,
        tree.end_vector(),
        letters,
        room,
        transitions,
        accepting,
    )
}

// Builds the automaton of a rule in the two buffers and gives the number of its states, or refuses. `room` is the number of states for which the caller has
// room elsewhere.
pub fn construct(
    i: usize,
    o: usize,
    text: &[u8],
    room: usize,
    transitions: &mut [u8],
    accepting: &mut [u8],
) -> Result<usize, Refusal>
    ensures { Constructed i o text.now room transitions.old accepting.old
        transitions.new accepting.new result }
{
    let mut nodes = [Node::Constant(false); NODE_LIMIT];
    let count = read_text(Subject::Rule, i, o, text, &mut nodes)?;
    let letters = power(i + o);
    build_nodes(&nodes[..count], letters, room, transitions, accepting)
}

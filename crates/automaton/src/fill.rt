// The second walk: the transitions and the flags of the states in the finished list.
ghost use Rattle.std.specs.Prelude.{◌≡◌, ℕ, ◌+◌, ◌*◌, ◌≤◌, ◌<◌, length, get_or};
ghost use Rattle.reader.specs.Formula.{Formula};
ghost use Rattle.automaton.specs.inner.Sizes.{vector_limit};
ghost use Rattle.automaton.specs.Bits.{bit, one};
ghost use Rattle.automaton.specs.Buffer.{Kept};
ghost use Rattle.automaton.specs.inner.Table.{TableOf};
ghost use Rattle.automaton.specs.inner.Exploration.{AllListed, Filled};

use crate::bits::test_bit;
use crate::states::States;
use crate::twins::TwinTable;

// Writes the transitions of state s: the twin's for a letter that has an earlier one, and else where the state after the letter stands. A loop of its own
// beside `list_letters`, which adds states and may stop: what they share is `TwinTable::twin`.
fn fill_state(twins: TwinTable, states: &States, s: usize, transitions: &mut [u8])
    requires { (s < length states.now) × (length states.now * twins.table.letters ≤ length transitions.old) }
    ensures filled { (φ : Formula) → TableOf φ twins.entry.table → AllListed φ twins.entry.table.letters states.now
        → Filled φ twins.entry.table.letters transitions.old (s * twins.entry.table.letters)
        → Filled φ twins.entry.table.letters transitions.new (s * twins.entry.table.letters + twins.entry.table.letters) }
    ensures kept { Kept (s * twins.entry.table.letters + twins.entry.table.letters) transitions.old transitions.new }
{
    let table = twins.table;
    let from = states.get(s);
    let row = s * table.letters;
    for a in 0..table.letters {
        let b = twins.twin(a);
        if b < a {
            transitions[row + a] = transitions[row + b];
            continue;
        }
        // every state is on the list by now, so the 0 never comes
        let p = states.find(table.successor(a, from)).unwrap_or(0);
        transitions[row + a] = p as u8;
    }
}

// Writes the transitions of the states, one row after the other.
pub(crate) fn fill_transitions(twins: TwinTable, states: &States, transitions: &mut [u8])
    requires { length states.now * twins.table.letters ≤ length transitions.old }
    ensures filled { (φ : Formula) → TableOf φ twins.entry.table → AllListed φ twins.entry.table.letters states.now
        → Filled φ twins.entry.table.letters transitions.new (length states.now * twins.entry.table.letters) }
    ensures kept { Kept (length states.now * twins.entry.table.letters) transitions.old transitions.new }
{
    for s in 0..states.count() {
        fill_state(twins, states, s, transitions);
    }
}

// Sets the flag of each state to whether it holds the end valuation.
pub(crate) fn mark_states(states: &States, end: u64, accepting: &mut [u8])
    requires { (length states.now ≤ length accepting.old) × (end < vector_limit) }
    ensures marked { (s : ℕ) → s < length states.now → get_or accepting.new s 0 ≡ one (bit (get_or states.now s 0) end) }
    ensures kept { Kept (length states.now) accepting.old accepting.new }
{
    for s in 0..states.count() {
        accepting[s] = u8::from(test_bit(states.get(s), end));
    }
}

// The first walk: the states of a formula's automaton, in the order of their discovery.
ghost use Rattle.std.specs.Prelude.{◌≡◌, ◌+◌, ◌*◌, ◌≤◌, ◌<◌, length, MatchOption, IfSome};
ghost use Rattle.reader.specs.Formula.{Formula};
ghost use Rattle.automaton.specs.Limits.{state_limit};
ghost use Rattle.automaton.specs.Discovery.{number_of_states};
ghost use Rattle.automaton.specs.inner.Table.{TableOf};
ghost use Rattle.automaton.specs.inner.Exploration.{Listed, AllListed};

use crate::states::States;
use crate::twins::TwinTable;

// Lists what the letters of state s lead to: a state that is not on the list yet comes to its end, and a letter with an earlier twin has
// nothing to add. None where the list would grow beyond the limit.
fn list_letters(twins: TwinTable, s: usize, states: &mut States) -> Option<()>
    requires { s < length states.old }
    ensures listed { (φ : Formula) → TableOf φ twins.entry.table → Listed φ twins.entry.table.letters (s * twins.entry.table.letters) states.old
        → MatchOption result (state_limit < number_of_states φ twins.entry.table.letters)
        (λ _. Listed φ twins.entry.table.letters (s * twins.entry.table.letters + twins.entry.table.letters) states.new) }
    ensures grown { length states.old ≤ length states.new }
{
    let table = twins.table;
    let from = states.get(s);
    for a in 0..table.letters {
        if twins.twin(a) < a {
            continue;
        }
        states.insert(table.successor(a, from))?;
    }
    Some(())
}

// Lists all states in the order of their discovery. Returns how many there are, or None where they are more than the limit.
pub(crate) fn list_states(twins: TwinTable, states: &mut States) -> Option<usize>
    ensures listed { (φ : Formula) → TableOf φ twins.entry.table → Listed φ twins.entry.table.letters 0 states.old
        → MatchOption result (state_limit < number_of_states φ twins.entry.table.letters) (λ _. AllListed φ twins.entry.table.letters states.new) }
    ensures count { IfSome result (λ n. (n ≡ length states.new) × (n ≤ state_limit)) }
{
    let mut s: usize = 0;
    // A `for` has no range here: the list grows while it is walked.
    while s < states.count() {
        list_letters(twins, s, states)?;
        s += 1;
    }
    Some(s)
}

// The rule call.
ghost use Rattle.std.specs.Prelude.{◌≡◌, ℕ, ◌*◌, ◌^◌, ◌≤◌, ◌||◌, length, nat_lt};
ghost use Rattle.automaton.specs.Limits.{name_limit};
ghost use Rattle.game.specs.Rule.{buffers, RuleSolved};
ghost use Rattle.game.specs.inner.RuleChecks.{RuleChecked};

use crate::answer::{Answer, verdict};
use crate::checks::game_of;
use crate::tables::decide;
use automaton::alphabet::{bad_alphabet, power};
use automaton::condition::read_condition;
use automaton::construct::construct;
use plays::mode::Mode;
use reader::reading::{check, too_long};
use reader::refusal::{Refusal, Subject};
use reader::vocabulary::Vocabulary;

// The number of states for which both tables have room.
fn table_room(i: usize, system: &[u8], environment: &[u8]) -> usize
    requires { i ≤ name_limit }
    ensures { (n : ℕ) → nat_lt result n ≡ (nat_lt (length system.now) (n * 2 ^ i) || nat_lt (length environment.now) n) }
{
    let rows = system.len() / power(i);
    if rows < environment.len() {
        return rows;
    }
    environment.len()
}

// The condition's mask, or the refusals before the states are counted, 1, 2, 4 to 8 and 15, in their order. Both lengths are tested before a text is read, and
// no nodes are kept: so no `read_text` of the automaton.
fn check_rule(i: usize, o: usize, rule: &[u8], condition: &[u8]) -> Result<u16, Refusal>
    ensures { RuleChecked i o rule.now condition.now result }
{
    if bad_alphabet(i, o) {
        return Err(Refusal::Alphabet);
    }
    if too_long(rule) || too_long(condition) {
        return Err(Refusal::TextLength);
    }
    let vocabulary = Vocabulary::of(Subject::Rule, i as u8, o as u8);
    check(rule, vocabulary).map_err(|e| e.refusal(Subject::Rule))?;
    read_condition(i, condition)
}

// Solves the game of a rule: refuses, or builds its automaton, fills both tables and gives the verdict on the start with its round number.
pub fn solve_rule(
    i: usize,
    o: usize,
    mode: Mode,
    rule: &[u8],
    condition: &[u8],
    transitions: &mut [u8],
    accepting: &mut [u8],
    system: &mut [u8],
    environment: &mut [u8],
) -> Answer
    ensures { RuleSolved mode i o rule.now condition.now
        (buffers transitions.old accepting.old system.old environment.old)
        (buffers transitions.new accepting.new system.new environment.new) result }
{
    let mask = check_rule(i, o, rule, condition)?;
    let room = table_room(i, system, environment);
    let n = construct(i, o, rule, room, transitions, accepting)?;
    let g = game_of(i, o, mode, n, transitions, accepting, mask);
    let round = decide(&g, 0, system, environment);
    Ok(verdict(n, round))
}

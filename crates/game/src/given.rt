// The call for a given automaton.
ghost use Rattle.std.specs.Prelude.{◌≡◌, ◌/◌, ◌^◌, ◌≤◌, not, ◌==◌};
ghost use Rattle.automaton.specs.Limits.{number_limit};
ghost use Rattle.plays.specs.Arena.{arena};
ghost use Rattle.game.specs.inner.Accepted.{AcceptedBy};
ghost use Rattle.game.specs.inner.Checks.{arena_at};
ghost use Rattle.game.specs.Given.{short_tables, later_refusal, GivenSolved};

use crate::answer::{Answer, verdict};
use crate::arena::{Automaton, Game};
use crate::checks::game_of;
use crate::tables::decide;
use automaton::alphabet::first_over;
use plays::mode::Mode;
use reader::refusal::Refusal;

// Whether a table is too short for the states.
fn short_tables(automaton: &Automaton, system: &[u8], environment: &[u8]) -> bool
    ensures { result ≡ short_tables (arena_at automaton.now 0) system.now environment.now }
{
    automaton.short_strategy(system) || environment.len() < automaton.states
}

// Whether the mask has a bit from place `inputs` up.
fn bad_mask(mask: u16, inputs: usize) -> bool
    requires { inputs ≤ number_limit }
    ensures { result ≡ not (mask / 2 ^ inputs == 0) }
{
    u32::from(mask) >> inputs != 0
}

// The refusal that comes first once i, o and n are in range, if one comes.
fn later_refusal(
    automaton: &Automaton,
    start: usize,
    mask: u16,
    system: &[u8],
    environment: &[u8],
) -> Option<Refusal>
    ensures { result ≡ later_refusal start (arena_at automaton.now mask) system.now environment.now }
{
    let states = automaton.states;
    if automaton.is_short() || short_tables(automaton, system, environment) {
        return Some(Refusal::Buffer(states));
    }
    if states <= start {
        return Some(Refusal::State);
    }
    let inputs = automaton.inputs;
    let letters = inputs * automaton.outputs;
    let count = states * letters;
    if let Some(k) = first_over(&automaton.transitions[..count], states) {
        return Some(Refusal::Move(k));
    }
    if bad_mask(mask, inputs) {
        return Some(Refusal::Value(0));
    }
    if mask == 0 {
        return Some(Refusal::Unsatisfiable);
    }
    None
}

// The game on a given automaton, or the refusal that comes first. The parameters stand side by side as the C interface hands them in; from here on they are a
// `Game`.
fn accepted<'a>(
    i: usize,
    o: usize,
    mode: Mode,
    n: usize,
    transitions: &'a [u8],
    accepting: &'a [u8],
    start: usize,
    mask: u16,
    system: &[u8],
    environment: &[u8],
) -> Result<Game<'a>, Refusal>
    ensures { AcceptedBy mode i o start (arena i o n transitions.now accepting.now mask) system.now environment.now result }
{
    let automaton = Automaton::new(i, o, n, transitions, accepting)?;
    if let Some(refusal) = later_refusal(&automaton, start, mask, system, environment) {
        return Err(refusal);
    }
    Ok(game_of(i, o, mode, n, transitions, accepting, mask))
}

// Solves the game on a given automaton: refuses what is out of range, or fills both tables and gives the verdict on the start with its round number.
pub fn solve_given(
    i: usize,
    o: usize,
    mode: Mode,
    n: usize,
    transitions: &[u8],
    accepting: &[u8],
    start: usize,
    mask: u16,
    system: &mut [u8],
    environment: &mut [u8],
) -> Answer
    ensures { GivenSolved mode i o start (arena i o n transitions.now accepting.now mask)
        system.old environment.old system.new environment.new result }
{
    let game = accepted(
        i,
        o,
        mode,
        n,
        transitions,
        accepting,
        start,
        mask,
        system,
        environment,
    )?;
    let round = decide(&game, start, system, environment);
    Ok(verdict(n, round))
}

// The tests of numbers and buffers that the calls share.
ghost use Rattle.std.specs.Prelude.{◌≡◌, false};
ghost use Rattle.automaton.specs.Alphabet.{bad_alphabet};
ghost use Rattle.plays.specs.Arena.{arena};
ghost use Rattle.game.specs.inner.Valid.{Valid};
ghost use Rattle.game.specs.inner.Game.{arena_of};
ghost use Rattle.game.specs.Given.{bad_count, short_read, short_strategy};

use crate::arena::{Automaton, Game};
use automaton::alphabet::{bad_alphabet, power};
use automaton::limits::STATE_LIMIT;
use plays::mode::Mode;
use reader::refusal::Refusal;

// Whether there are no states, or more than the limit.
fn bad_count(n: usize) -> bool
    ensures { result ≡ bad_count n }
{
    n == 0 || STATE_LIMIT < n
}

impl<'a> Automaton<'a> {
    ghost use Rattle.game.specs.inner.Checks.{arena_at, Sized};

    // An automaton of n states, i inputs and o outputs, or the refusal of a number that is out of range.
    pub(crate) fn new(
        i: usize,
        o: usize,
        n: usize,
        transitions: &'a [u8],
        accepting: &'a [u8],
    ) -> Result<Automaton<'a>, Refusal>
        ensures { Sized i o n transitions.now accepting.now result }
    {
        if bad_alphabet(i, o) {
            return Err(Refusal::Alphabet);
        }
        if bad_count(n) {
            return Err(Refusal::GivenCount);
        }
        Ok(Automaton {
            states: n,
            inputs: power(i),
            outputs: power(o),
            transitions,
            accepting,
        })
    }

    // Whether the transitions or the flags are too short for the states: of a given automaton, where `short_automaton` is about one that is built.
    pub(crate) fn is_short(&self) -> bool
        ensures { result ≡ short_read (arena_at self.now 0) }
    {
        let letters = self.inputs * self.outputs;
        self.transitions.len() < self.states * letters || self.accepting.len() < self.states
    }

    // Whether the system's table is too short for the states.
    pub(crate) fn short_strategy(&self, system: &[u8]) -> bool
        ensures { result ≡ short_strategy (arena_at self.now 0) system.now }
    {
        system.len() < self.states * self.inputs
    }
}

// The game of n states, i inputs and o outputs on an automaton.
pub(crate) fn game_of<'a>(
    i: usize,
    o: usize,
    mode: Mode,
    n: usize,
    transitions: &'a [u8],
    accepting: &'a [u8],
    mask: u16,
) -> Game<'a>
    requires alphabet { bad_alphabet i o ≡ false }
    requires valid { Valid (arena i o n transitions.now accepting.now mask) }
    ensures mode { result.mode ≡ mode }
    ensures arena { arena_of result ≡ arena i o n transitions.now accepting.now mask }
{
    Game {
        mode,
        mask,
        states: n,
        inputs: power(i),
        outputs: power(o),
        transitions,
        accepting,
    }
}

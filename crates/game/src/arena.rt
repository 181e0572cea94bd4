// The arena in code: its numbers, and one step on its transitions.
ghost use Rattle.std.specs.Prelude.{◌≡◌, ◌<◌};
ghost use Rattle.plays.specs.inner.Rank.{is_fair};
ghost use Rattle.plays.specs.Arena.{next, holds};
ghost use Rattle.game.specs.inner.Valid.{arena_from, Valid};
ghost use Rattle.game.specs.inner.Range.{InRange};

use plays::mode::Mode;

// An automaton as a caller lends it, with its numbers of states, inputs and outputs, which are in range; of the transitions and the flags nothing is known.
#[derive(Clone, Copy)]
pub struct Automaton<'a> {
    pub states: usize,
    pub inputs: usize,
    pub outputs: usize,
    pub transitions: &'a [u8],
    pub accepting: &'a [u8],
    ghost in_range: { InRange states inputs outputs },
}

// A game to be solved: the mode, the condition's mask, the numbers of states, inputs and outputs, and the automaton's transitions and flags. No `Automaton` in
// it: `g.automaton.states` in every contract would be no plainer. Clauses say `s < g.states` and the like: a type for an index would be longer than that.
#[derive(Clone, Copy)]
pub struct Game<'a> {
    pub mode: Mode,
    pub mask: u16,
    pub states: usize,
    pub inputs: usize,
    pub outputs: usize,
    pub transitions: &'a [u8],
    pub accepting: &'a [u8],
    ghost valid: { Valid (arena_from states inputs outputs transitions.now accepting.now mask) },
}

impl<'a> Game<'a> {
    ghost use Rattle.game.specs.inner.Game.{arena_of};

    // Whether the mode is fair.
    pub(crate) fn is_fair(&self) -> bool
        ensures { result ≡ is_fair self.now.mode }
    {
        matches!(self.mode, Mode::Fair)
    }

    // Whether input x has the condition.
    #[tactic(auto, unfolding(plays::specs::Arena::holds, automaton::specs::Bits::bit))]
    pub(crate) fn has_condition(&self, x: usize) -> bool
        requires { x < self.now.inputs }
        ensures { result ≡ holds (arena_of self.now) x }
    {
        (self.mask >> x) % 2 == 1
    }

    // The state that input x and output y lead to from state s.
    #[tactic(auto, unfolding(plays::specs::Arena::next))]
    pub(crate) fn enters(&self, s: usize, x: usize, y: usize) -> usize
        requires { (s < self.now.states) × (x < self.now.inputs) × (y < self.now.outputs) }
        ensures next { result ≡ next (arena_of self.now) s x y }
        ensures below { result < self.now.states }
    {
        let inputs = self.inputs;
        let letters = inputs * self.outputs;
        let at = s * letters + (x + inputs * y);
        usize::from(self.transitions[at])
    }
}

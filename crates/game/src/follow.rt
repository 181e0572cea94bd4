// The follower: one step of the system's table.
ghost use Rattle.std.specs.Prelude.{◌≡◌, ◌<◌, false, not, ◌||◌, ◌==◌};
ghost use Rattle.plays.specs.Arena.{arena};
ghost use Rattle.game.specs.inner.Checks.{arena_at};
ghost use Rattle.game.specs.Given.{short_read};
ghost use Rattle.game.specs.Follower.{moved_by, later_followed, FollowedBy};

use crate::arena::Automaton;
use reader::refusal::Refusal;

// A place in a play: the state, and whether a goal was entered.
#[derive(Clone, Copy, PartialEq, Eq, Debug)]
pub struct Position {
    pub state: usize,
    pub reached: bool,
}

// The output of a step, and the position after it.
#[derive(Clone, Copy, PartialEq, Eq, Debug)]
pub struct Followed {
    pub output: u8,
    pub next: Position,
}

impl Position {
    // The position after a step that enters a state with this flag.
    fn entered(self, state: usize, flag: u8) -> Position
        ensures { (result.state ≡ state) × (result.reached ≡ (self.reached || not (flag == 0))) }
    {
        let reached = self.reached || flag != 0;
        Position { state, reached }
    }

    // The move by output b, which is in range.
    #[tactic(auto, unfolding(plays::specs::Arena::next))]
    fn moved_by(self, automaton: &Automaton, x: usize, b: u8) -> Result<Option<Followed>, Refusal>
        requires long { short_read (arena_at automaton.now 0) ≡ false }
        requires in_range { (self.state < automaton.now.states) × (x < automaton.now.inputs) × (b < automaton.now.outputs) }
        ensures { result ≡ moved_by (arena_at automaton.now 0) self x b }
    {
        let inputs = automaton.inputs;
        let letters = inputs * automaton.outputs;
        let at = self.state * letters + (x + inputs * usize::from(b));
        let t = usize::from(automaton.transitions[at]);
        if automaton.states <= t {
            return Err(Refusal::Move(at));
        }
        let next = self.entered(t, automaton.accepting[t]);
        Ok(Some(Followed { output: b, next }))
    }

    // One step of the table once i, o and n are in range.
    fn step(
        self,
        automaton: &Automaton,
        system: &[u8],
        x: usize,
    ) -> Result<Option<Followed>, Refusal>
        ensures { result ≡ later_followed (arena_at automaton.now 0) system.now self x }
    {
        let states = automaton.states;
        if automaton.is_short() || automaton.short_strategy(system) {
            return Err(Refusal::Buffer(states));
        }
        let s = self.state;
        if states <= s {
            return Err(Refusal::State);
        }
        let inputs = automaton.inputs;
        if inputs <= x {
            return Err(Refusal::Value(0));
        }
        let b = system[s * inputs + x];
        if automaton.outputs <= usize::from(b) {
            return Ok(None);
        }
        self.moved_by(automaton, x, b)
    }

    // Follows the system's table by one step; none where the table has no row for the state.
    pub fn follow(
        self,
        i: usize,
        o: usize,
        n: usize,
        transitions: &[u8],
        accepting: &[u8],
        system: &[u8],
        x: usize,
    ) -> Result<Option<Followed>, Refusal>
        ensures { FollowedBy i o (arena i o n transitions.now accepting.now 0) system.now self x result }
    {
        let automaton = Automaton::new(i, o, n, transitions, accepting)?;
        self.step(&automaton, system, x)
    }
}

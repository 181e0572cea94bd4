// The search for an input that no output serves.
ghost use Rattle.std.specs.Prelude.{◌≡◌, ◌<◌, ◌≤◌};
ghost use Rattle.automaton.specs.Limits.{state_limit};
ghost use Rattle.game.specs.inner.Game.{arena_of};
ghost use Rattle.game.specs.inner.Serving.{serving, Served, FirstUnserved};
ghost use Rattle.game.specs.inner.Targets.{won_by, safe_by};

use crate::arena::Game;
use crate::below::Below;
use automaton::limits::{NUMBER_LIMIT, STATE_LIMIT};

// For each state and input the output that served last.
pub type Witness = [u8; STATE_LIMIT * NUMBER_LIMIT];

// The states that are safe: those with a rank below a limit, or all others.
#[derive(Clone, Copy)]
pub enum Safe<'a> {
    Inside(Below<'a>),
    Outside(Below<'a>),
}

// The states that a step may enter: those that are won where its input has the condition, and those that are safe where it lacks it.
#[derive(Clone, Copy)]
pub struct Targets<'a> {
    pub won: Below<'a>,
    pub safe: Safe<'a>,
}

// The output y, or output 0 where y is none of the n outputs.
fn wrapped(y: usize, n: usize) -> usize
    ensures { (y < n → result ≡ y) × (n ≤ y → result ≡ 0) }
{
    if y < n { y } else { 0 }
}

impl<'a> Targets<'a> {
    // Whether state t is safe.
    fn is_safe(&self, t: usize) -> bool
        requires { t < state_limit }
        ensures { result ≡ safe_by self.now t }
    {
        match self.safe {
            Safe::Inside(below) => below.contains(t),
            Safe::Outside(below) => !below.contains(t),
        }
    }

    // Whether output y serves input x on state s: it enters a goal or a target.
    fn serves(&self, g: &Game, s: usize, x: usize, y: usize) -> bool
        requires { (s < g.now.states) × (x < g.now.inputs) × (y < g.now.outputs) }
        ensures { result ≡ serving (arena_of g.now) (won_by self.now) (safe_by self.now) s x y }
    {
        let t = g.enters(s, x, y);
        if g.accepting[t] != 0 {
            return true;
        }
        if g.has_condition(x) {
            return self.won.contains(t);
        }
        self.is_safe(t)
    }

    // An output that serves input x on state s, if there is one. The search begins at the output `first` and goes around, counted beside the `for`: two loops
    // would be two calls of `serves`, slower than one (docs/PROVING.md, "Speed"), and a chain of two ranges, both cut at the number of outputs, would be no
    // plainer.
    fn serving_output(&self, g: &Game, s: usize, x: usize, first: usize) -> Option<usize>
        requires { (s < g.now.states) × (x < g.now.inputs) }
        ensures { Served (arena_of g.now) (won_by self.now) (safe_by self.now) s x result }
    {
        let mut y = first;
        for tried in 0..g.outputs {
            y = wrapped(y, g.outputs);
            if self.serves(g, s, x, y) {
                return Some(y);
            }
            y += 1;
        }
        None
    }

    // The first input of state s that no output serves, if there is one. The search for an output begins at the witness, the one that served last.
    pub(crate) fn unserved(&self, g: &Game, s: usize, witness: &mut Witness) -> Option<usize>
        requires { s < g.now.states }
        ensures { FirstUnserved (arena_of g.now) (won_by self.now) (safe_by self.now) s result }
    {
        // copies, whose fields the loops keep in registers
        let g = *g;
        let targets = *self;
        for x in 0..g.inputs {
            let at = s * g.inputs + x;
            let Some(y) = targets.serving_output(&g, s, x, usize::from(witness[at])) else {
                return Some(x);
            };
            witness[at] = y as u8;
        }
        None
    }
}

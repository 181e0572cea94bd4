// Sets of states by their ranks.
ghost use Rattle.std.specs.Prelude.{◌≡◌, ◌<◌};
ghost use Rattle.automaton.specs.Limits.{state_limit};
ghost use Rattle.game.specs.inner.Serving.{ranked_below};

use crate::limits::{Rank, Ranks};

// The states with a rank below a limit.
#[derive(Clone, Copy)]
pub struct Below<'a> {
    pub limit: Rank,
    pub ranks: &'a Ranks,
    ghost positive: { 0 < limit },
}

impl<'a> Below<'a> {
    // Whether state t is one of them. Rank 0, which is none, wraps to above every limit.
    #[tactic(auto, using(crate::proofs::LimitLaws::one_less))]
    pub(crate) fn contains(&self, t: usize) -> bool
        requires { t < state_limit }
        ensures { result ≡ ranked_below self.now.limit self.now.ranks.now t }
    {
        self.ranks[t].wrapping_sub(1) < self.limit - 1
    }
}

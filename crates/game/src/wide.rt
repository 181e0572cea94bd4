// The needs of the system when stable with a limit, those above it too: passes over the states that may have one.
ghost use Rattle.std.specs.Prelude.{◌≡◌, ℕ, ◌+◌, ◌<◌, ◌≤◌, true, false, slice_index};
ghost use Rattle.plays.specs.inner.Rank.{Ranked};
ghost use Rattle.game.specs.inner.Limits.{rank_limit};
ghost use Rattle.game.specs.inner.Game.{arena_of};
ghost use Rattle.game.specs.inner.Needs.{Bounds, Shrinks, SystemNeeds};
ghost use Rattle.game.specs.inner.Wide.{Opened, Hopeful, Looks, Standing, Looked, Widening, Widened, Wide};

use crate::arena::Game;
use crate::below::Below;
use crate::limits::{RANK_LIMIT, Rank, Ranks};
use crate::needs::Needs;
use crate::search::Witness;
use automaton::limits::STATE_LIMIT;

impl Needs {
    // Whether state s may have a need above the limit: the system wins it, it has none within the limit, and every input has an output into a goal, or into a
    // state that the system wins where the input has the condition, and into a need within the limit where it lacks it.
    fn hopeful<'a>(&'a self, g: &Game, system: &'a Ranks, s: usize, witness: &mut Witness) -> bool
        requires bounds { Bounds (arena_of g.now) self.now.limit self.now.ranks }
        requires of_system { SystemNeeds (arena_of g.now) system.now }
        requires s_lt_states { s < g.now.states }
        ensures { Hopeful (arena_of g.now) self.now.limit system.now self.now.ranks s result }
    {
        if system[s] == 0 || self.ranks[s] != 0 {
            return false;
        }
        let won = Below {
            limit: RANK_LIMIT,
            ranks: system,
        };
        self.unserved(g, won, s, witness).is_none()
    }

    // The pass in which each state is due: for one that may have a need above the limit its need with n, which is no larger, and no pass before the first; 0
    // for the others.
    fn first_looks(&self, g: &Game, system: &Ranks, witness: &mut Witness) -> Ranks
        requires bounds { Bounds (arena_of g.now) self.now.limit self.now.ranks }
        requires of_system { SystemNeeds (arena_of g.now) system.now }
        requires limit_le_states { self.now.limit ≤ g.now.states }
        ensures { Looks (arena_of g.now) self.now.limit system.now self.now.ranks result g.now.states }
    {
        let mut due: Ranks = [0; STATE_LIMIT];
        for s in 0..g.states {
            if self.hopeful(g, system, s, witness) {
                due[s] = system[s].max(self.limit + 1);
            }
        }
        due
    }

    // Whether every input of state s has an output into a goal, or into a need below p where the input has the condition, and within the limit where it lacks
    // it.
    fn opened(&self, g: &Game, p: Rank, s: usize, witness: &mut Witness) -> bool
        requires s_lt_states { (s < g.now.states) × (0 < p) }
        ensures { Opened (arena_of g.now) self.now.limit self.now.ranks p s result }
    {
        let won = Below {
            limit: p,
            ranks: &self.ranks,
        };
        self.unserved(g, won, s, witness).is_none()
    }

    // Looks at state s in pass p if it is due: gives it the need p, or puts it off to the next pass. Says whether another pass may give a need: the state got
    // one, or is due later. The system's ranks stand in the contract alone.
    fn look(
        &mut self,
        g: &Game,
        system: &Ranks,
        due: &mut Ranks,
        p: Rank,
        s: usize,
        witness: &mut Witness,
    ) -> bool
        requires standing { Standing (arena_of g.now) self.old.limit system.now self.old.ranks due.old p }
        requires s_lt_states { (s < g.now.states) × (p ≤ rank_limit + rank_limit) }
        ensures looked { Looked (arena_of g.now) self.old.limit
            system.now self.old.ranks due.old self.new.ranks due.new p s result }
        ensures limit_kept { self.new.limit ≡ self.old.limit }
    {
        let when = due[s];
        if when != p {
            return p < when;
        }
        if self.opened(g, p, s, witness) {
            self.ranks[s] = p;
            due[s] = 0;
            return true;
        }
        due[s] = p + 1;
        false
    }

    // Pass p over all states, and whether another pass may give a need.
    fn pass(
        &mut self,
        g: &Game,
        system: &Ranks,
        due: &mut Ranks,
        p: Rank,
        witness: &mut Witness,
    ) -> bool
        requires widening { Widening (arena_of g.now) self.old.limit system.now self.old.ranks due.old p }
        requires p_fits { p ≤ rank_limit + rank_limit }
        ensures widened { Widened (arena_of g.now) self.new.limit
            system.now self.old.ranks self.new.ranks due.new p g.now.states result }
        ensures limit_kept { self.new.limit ≡ self.old.limit }
    {
        let mut going = false;
        for s in 0..g.states {
            if self.look(g, system, due, p, s, witness) {
                going = true;
            }
        }
        going
    }

    // Adds the needs above the limit: passes until no other may give one, for which no range is known before.
    pub(crate) fn widen(&mut self, g: &Game, system: &Ranks, witness: &mut Witness)
        requires bounds { Bounds (arena_of g.now) self.old.limit self.old.ranks }
        requires ranked { Ranked (arena_of g.now) true false self.old.limit self.old.ranks }
        requires shrinks { Shrinks system.now self.old.ranks }
        requires by_index { (t : ℕ) → slice_index self.old.ranks t ≤ self.old.limit }
        requires of_system { SystemNeeds (arena_of g.now) system.now }
        requires limit_le_states { self.old.limit ≤ g.now.states }
        ensures wide { Wide (arena_of g.now) self.new.limit system.now self.old.ranks self.new.ranks }
        ensures limit_kept { self.new.limit ≡ self.old.limit }
    {
        let mut due: Ranks = self.first_looks(g, system, witness);
        let mut p: Rank = self.limit + 1;
        while self.pass(g, system, &mut due, p, witness) {
            p += 1;
        }
    }
}

// The needs of the system when stable, within a limit, and the least limit with which the start has one.
ghost use Rattle.std.specs.Prelude.{◌≡◌, ◌+◌, ◌<◌, ◌≤◌, true, false, slice_index};
ghost use Rattle.automaton.specs.Limits.{state_limit};
ghost use Rattle.game.specs.inner.Game.{arena_of};
ghost use Rattle.game.specs.inner.Serving.{ranked_below, safe_below, FirstUnserved};
ghost use Rattle.game.specs.inner.Needs.{Marked, Bounds, raised_need, NextNeed, Swept, Settled, SystemNeeds, Narrowed};

use crate::arena::Game;
use crate::below::Below;
use crate::limits::{Rank, Ranks};
use crate::search::{Safe, Targets, Witness};
use automaton::limits::STATE_LIMIT;

// Raises a need by one, and drops it above the limit.
fn raised(limit: Rank, need: Rank) -> Rank
    requires { limit ≤ state_limit }
    ensures { result ≡ raised_need limit need }
{
    if need < limit { need + 1 } else { 0 }
}

// Needs, and the limit that none shall be above. `Bounds` and `SystemNeeds` stay clauses: there are pairs in them, which a ghost field would have in brackets
// only.
#[derive(Clone, Copy)]
pub struct Needs {
    pub ranks: Ranks,
    pub limit: Rank,
    ghost fits: { limit ≤ state_limit },
}

impl Needs {
    // The first input of state s, if there is one, for which no output enters a goal, a state that is won where the input has the condition, or a need within
    // the limit where it lacks it.
    pub(crate) fn unserved<'a>(
        &'a self,
        g: &Game,
        won: Below<'a>,
        s: usize,
        witness: &mut Witness,
    ) -> Option<usize>
        requires { s < g.now.states }
        ensures { FirstUnserved (arena_of g.now) (ranked_below won.entry.limit won.entry.ranks.now)
            (safe_below true (self.now.limit + 1) self.now.ranks) s result }
    {
        let safe = Safe::Inside(Below {
            limit: self.limit + 1,
            ranks: &self.ranks,
        });
        Targets { won, safe }.unserved(g, s, witness)
    }

    // The need of state s after a look at it: as it is, where every input has an output by which the needs fall; raised, where an input with the condition has
    // none; dropped, where it is above the limit, or an input without the condition has none, since no larger need would help there.
    fn next_need(&self, g: &Game, s: usize, witness: &mut Witness) -> Rank
        requires bounds { Bounds (arena_of g.now) self.now.limit self.now.ranks }
        requires s_lt_states { s < g.now.states }
        ensures { NextNeed (arena_of g.now) self.now.limit self.now.ranks s result }
    {
        let own = self.ranks[s];
        if own == 0 || self.limit < own {
            return 0;
        }
        let won = Below {
            limit: own,
            ranks: &self.ranks,
        };
        match self.unserved(g, won, s, witness) {
            None => own,
            Some(x) if g.has_condition(x) => raised(self.limit, own),
            Some(_) => 0,
        }
    }

    // Looks at each state once, and says whether a need changed. The loop is its own, as in `pass` and `promote`: one that is shared would take a closure that
    // changes what it captures, and a clause on what that does, for these few lines.
    fn sweep(&mut self, g: &Game, witness: &mut Witness) -> bool
        requires { Bounds (arena_of g.now) self.old.limit self.old.ranks }
        ensures swept { Swept (arena_of g.now) self.new.limit self.old.ranks self.new.ranks g.now.states result }
        ensures limit_kept { self.new.limit ≡ self.old.limit }
    {
        let mut lifted = false;
        for s in 0..g.states {
            let need = self.next_need(g, s, witness);
            if need != self.ranks[s] {
                self.ranks[s] = need;
                lifted = true;
            }
        }
        lifted
    }

    // Lifts the needs, which may be too low, until a sweep changes none, or the start has none.
    fn settle(&mut self, g: &Game, start: usize, witness: &mut Witness)
        requires bounds { Bounds (arena_of g.now) self.old.limit self.old.ranks }
        requires start_lt_states { start < g.now.states }
        ensures settled { Settled (arena_of g.now) start self.new.limit self.old.ranks self.new.ranks }
        ensures limit_kept { self.new.limit ≡ self.old.limit }
    {
        while self.ranks[start] != 0 && self.sweep(g, witness) {}
    }
}

// The needs to begin with: 1 for each of the n states that the system wins.
fn first_needs(system: &Ranks, n: usize) -> Ranks
    requires { n ≤ state_limit }
    ensures { Marked n system.now result }
{
    let mut needs: Ranks = [0; STATE_LIMIT];
    for s in 0..n {
        if system[s] != 0 {
            needs[s] = 1;
        }
    }
    needs
}

// A limit between two others: near the lower one at first, in the middle at last.
fn between(low: Rank, high: Rank) -> Rank
    requires { (low + 1 < high) × (high ≤ state_limit) }
    ensures { (low < result) × (result < high) }
{
    (low + low + 1).min((low + high) / 2)
}

// The needs with the least limit with which the start has one, found between a limit with which it has none and one with which it has. With n it has one:
// there the system's ranks are such needs. What a smaller limit asks for is no less, so its needs are lifted from those of the last one with which it has.
pub(crate) fn narrow(g: &Game, start: usize, system: &Ranks, witness: &mut Witness) -> Needs
    requires start_lt_states { (start < g.now.states) × (0 < slice_index system.now start) }
    requires of_system { SystemNeeds (arena_of g.now) system.now }
    ensures { Narrowed (arena_of g.now) start system.now result.ranks result.limit }
{
    let n = g.states as Rank;
    let mut best = Needs {
        ranks: *system,
        limit: n,
    };
    let mut needs = Needs {
        ranks: first_needs(system, g.states),
        limit: n,
    };
    let mut low: Rank = 0;
    while low + 1 < best.limit {
        let ranks = needs.ranks;
        let mut next = Needs {
            ranks,
            limit: between(low, best.limit),
        };
        next.settle(g, start, witness);
        if next.ranks[start] == 0 {
            low = next.limit;
        } else {
            best = next;
            needs = next;
        }
    }
    // with the limit `low` the start has no need
    best
}

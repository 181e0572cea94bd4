// The ranks of both players: rounds that give outer ranks, in each of them passes that give inner ranks.
ghost use Rattle.std.specs.Prelude.{◌≡◌, ◌<◌, ◌≤◌, true, false};
ghost use Rattle.automaton.specs.Limits.{state_limit};
ghost use Rattle.plays.specs.inner.Rank.{is_fair};
ghost use Rattle.game.specs.inner.Game.{arena_of};
ghost use Rattle.game.specs.inner.Rounds.{Unranked, Apart, Attracted, InnerRanks, Stayed, Passed, Attraction, Promoted, Found};

use crate::arena::Game;
use crate::below::Below;
use crate::limits::{RANK_LIMIT, Rank, Ranks};
use crate::search::{Safe, Targets, Witness};
use automaton::limits::STATE_LIMIT;

// The ranks of both players, 0 for none.
#[derive(Clone, Copy)]
pub struct PlayerRanks {
    pub system: Ranks,
    pub environment: Ranks,
}

// The ranks in a round, 0 for none: the outer ones of the rounds so far, and the inner ones of the passes of this round.
#[derive(Clone, Copy)]
struct RoundRanks {
    outer: Ranks,
    inner: Ranks,
}

impl RoundRanks {
    // Whether state s has neither rank.
    fn unranked(&self, s: usize) -> bool
        requires { s < state_limit }
        ensures unranked { result ≡ true → Unranked self.now.outer self.now.inner s }
        ensures fact { result ≡ false → Unranked self.now.outer self.now.inner s → ⊥ }
    {
        self.outer[s] == 0 && self.inner[s] == 0
    }

    // Whether pass p gives state s an inner rank: it has none, and one step leads to earlier passes, whatever the other player does.
    fn attracted(&self, g: &Game, p: Rank, s: usize, witness: &mut Witness) -> bool
        requires s_lt_states { (s < g.now.states) × (0 < p) }
        requires apart { Apart self.now.outer self.now.inner }
        ensures { Attracted (is_fair g.now.mode) (arena_of g.now) self.now.outer self.now.inner p s result }
    {
        if !self.unranked(s) {
            return false;
        }
        let ranked = Below {
            limit: RANK_LIMIT,
            ranks: &self.outer,
        };
        let earlier = Below {
            limit: p,
            ranks: &self.inner,
        };
        if g.is_fair() {
            let targets = Targets {
                won: ranked,
                safe: Safe::Outside(earlier),
            };
            targets.unserved(g, s, witness).is_some()
        } else {
            let targets = Targets {
                won: earlier,
                safe: Safe::Outside(ranked),
            };
            targets.unserved(g, s, witness).is_none()
        }
    }

    // Gives the inner rank p to each state that is attracted, and says whether there was one.
    fn pass(&mut self, g: &Game, p: Rank, witness: &mut Witness) -> bool
        requires inner_ranks { InnerRanks (is_fair g.now.mode) (arena_of g.now) self.old.outer self.old.inner p }
        requires stayed { Stayed (is_fair g.now.mode) (arena_of g.now) self.old.outer self.old.inner p }
        ensures passed { Passed (is_fair g.now.mode) (arena_of g.now) self.old.outer self.old.inner self.new.inner p g.now.states result }
        ensures outer { self.new.outer ≡ self.old.outer }
    {
        let mut gave = false;
        for s in 0..g.states {
            if self.attracted(g, p, s, witness) {
                self.inner[s] = p;
                gave = true;
            }
        }
        gave
    }

    // Finds the inner ranks against the outer ranks: passes until one gives none, for which no range is known before.
    fn attract(&mut self, g: &Game, witness: &mut Witness)
        ensures attraction { Attraction (is_fair g.now.mode) (arena_of g.now) self.old.outer self.new.inner }
        ensures outer { self.new.outer ≡ self.old.outer }
    {
        self.inner = [0; STATE_LIMIT];
        let mut p: Rank = 1;
        while self.pass(g, p, witness) {
            p += 1;
        }
    }

    // Gives the outer rank r to each state below n that has no rank, and says whether there was one. A loop of its own, as `Needs::sweep` says.
    fn promote(&mut self, n: usize, r: Rank) -> bool
        requires { n ≤ state_limit }
        ensures promoted { Promoted n r self.old.outer self.old.inner self.new.outer result }
        ensures inner { self.new.inner ≡ self.old.inner }
    {
        let mut gave = false;
        for s in 0..n {
            if self.unranked(s) {
                self.outer[s] = r;
                gave = true;
            }
        }
        gave
    }
}

// The ranks of both players, with the witnesses to begin with: rounds until one gives no outer rank, for which no range is known before.
pub(crate) fn rounds(g: &Game, witness: &mut Witness) -> PlayerRanks
    ensures { Found (is_fair g.now.mode) (arena_of g.now) result.system result.environment }
{
    let mut ranks = RoundRanks {
        outer: [0; STATE_LIMIT],
        inner: [0; STATE_LIMIT],
    };
    let mut r: Rank = 1;
    ranks.attract(g, witness);
    while ranks.promote(g.states, r) {
        r += 1;
        ranks.attract(g, witness);
    }
    if g.is_fair() {
        return PlayerRanks {
            system: ranks.outer,
            environment: ranks.inner,
        };
    }
    PlayerRanks {
        system: ranks.inner,
        environment: ranks.outer,
    }
}

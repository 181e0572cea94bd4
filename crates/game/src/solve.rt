// What the tables are filled by: the ranks of both players, and the round number of the start.
ghost use Rattle.std.specs.Prelude.{◌<◌};
ghost use Rattle.plays.specs.inner.Rank.{is_fair};
ghost use Rattle.game.specs.inner.Game.{arena_of};
ghost use Rattle.game.specs.inner.Rounds.{Found};
ghost use Rattle.game.specs.inner.Solution.{Solves};

use crate::arena::Game;
use crate::limits::{Rank, Ranks};
use crate::needs::narrow;
use crate::rounds::{PlayerRanks, rounds};
use crate::search::Witness;
use automaton::limits::{NUMBER_LIMIT, STATE_LIMIT};

// What the solver finds: the ranks of both players, the ranks by which the system's table goes first with their limit, which is read when stable alone, and the
// round number, 0 where the system cannot, as `Verdict` in specs/Tables.antt has it.
#[derive(Clone, Copy)]
pub struct Solution {
    pub players: PlayerRanks,
    pub near: Ranks,
    pub limit: Rank,
    pub round: Rank,
}

// The round number of the start, and the ranks by which the system's table keeps it. When fair both are the system's ranks; when stable they are the
// needs with the least limit that does for the start, or with n where the environment wins the start.
fn numbered(g: &Game, start: usize, players: PlayerRanks, witness: &mut Witness) -> Solution
    requires start_lt_states { start < g.now.states }
    requires found { Found (is_fair g.now.mode) (arena_of g.now) players.system players.environment }
    ensures { Solves (is_fair g.now.mode) (arena_of g.now) start
        result.near result.players.system result.players.environment result.limit result.round }
{
    let system = players.system;
    if g.is_fair() {
        let round = system[start];
        return Solution {
            players,
            near: system,
            limit: round,
            round,
        };
    }
    if players.environment[start] != 0 {
        return Solution {
            players,
            near: system,
            limit: g.states as Rank,
            round: 0,
        };
    }
    let mut needs = narrow(g, start, &system, witness);
    needs.widen(g, &system, witness);
    let near = needs.ranks;
    let limit = needs.limit;
    Solution {
        players,
        near,
        limit,
        round: limit,
    }
}

// Solves the game from the start. The witness of a state and an input is the output that served it last; at first, output 0.
pub(crate) fn solve(g: &Game, start: usize) -> Solution
    requires start_lt_states { start < g.now.states }
    ensures { Solves (is_fair g.now.mode) (arena_of g.now) start
        result.near result.players.system result.players.environment result.limit result.round }
{
    let mut witness: Witness = [0; STATE_LIMIT * NUMBER_LIMIT];
    let players = rounds(g, &mut witness);
    numbered(g, start, players, &mut witness)
}

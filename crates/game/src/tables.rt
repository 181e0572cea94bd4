// The two tables: for each state that a player wins, the lowest output or input that its ranks allow.
ghost use Rattle.std.specs.Prelude.{◌≡◌, ◌*◌, ◌<◌, ◌≤◌, true, false, not, length, ℕ, Bool, IfSome};
ghost use Rattle.automaton.specs.Limits.{state_limit};
ghost use Rattle.plays.specs.inner.Rank.{is_fair, Ranked, AllowedOutput, AllowedInput};
ghost use Rattle.game.specs.inner.Game.{arena_of};
ghost use Rattle.game.specs.Tables.{Tables, Verdict};
ghost use Rattle.game.specs.inner.Bytes.{
  limit_of,
  rank_at,
  move_byte,
  is_below,
  FirstStop,
  Move,
  MixedByte,
  SystemFilled,
  EnvironmentFilled,
};

use crate::arena::Game;
use crate::limits::{NO_MOVE, Rank, Ranks};
use crate::solve::solve;

// The rank of state s, if it has one.
fn rank_at(ranks: &Ranks, s: usize) -> Option<Rank>
    requires { s < state_limit }
    ensures { result ≡ rank_at ranks.now s }
{
    match ranks[s] {
        0 => None,
        rank => Some(rank),
    }
}

// Whether state t has a rank, and one that is at most `most`. `Below` of the search goes by a limit above the ranks: `most + 1` might not fit.
fn is_below(ranks: &Ranks, most: Rank, t: usize) -> bool
    requires { t < state_limit }
    ensures { result ≡ is_below ranks.now most t }
{
    (1..=most).contains(&ranks[t])
}

// The largest rank that is allowed after a step from a state of rank `own`, where `most` is the cap of ranks that are not steady. The truth values choose a
// number, no step to run.
fn limit(steady: bool, most: Rank, judged: bool, own: Rank) -> Rank
    requires { 0 < own }
    ensures { result ≡ limit_of steady most judged own }
{
    if judged {
        return own - 1;
    }
    if steady {
        return own;
    }
    most
}

// The first output for input x on state s that enters a goal or a state where the search stops, if there is one.
fn first_output<F: Fn(usize) -> bool>(g: &Game, s: usize, x: usize, stops: F) -> Option<usize>
    requires s_lt_states { (s < g.now.states) × (x < g.now.inputs) }
    requires callable { (t : ℕ) → t < g.now.states → F.pre stops t }
    ensures { (p : ℕ → Bool) → ((t : ℕ) (b : Bool) → t < g.now.states → F.post stops t b → b ≡ p t)
        → FirstStop (arena_of g.now) p s x result }
{
    for y in 0..g.outputs {
        let t = g.enters(s, x, y);
        if g.accepting[t] != 0 || stops(t) {
            return Some(y);
        }
    }
    None
}

// The system's ranks on a game, with the cap of those that are not steady.
#[derive(Clone, Copy)]
struct SystemRanks<'a> {
    game: &'a Game<'a>,
    ranks: &'a Ranks,
    cap: Rank,
    ghost ranked: { ∥ Ranked (arena_of game.now) true (is_fair game.now.mode) cap ranks.now ∥₁ },
}

impl<'a> SystemRanks<'a> {
    // The lowest output that the ranks allow for input x on state s, if the state has a rank.
    fn output(&self, s: usize, x: usize) -> Option<usize>
        requires { (s < state_limit) × (x < self.now.game.now.inputs) }
        ensures { Move self.now.ranks.now s
            (AllowedOutput (is_fair self.now.game.now.mode) (arena_of self.now.game.now) self.now.cap self.now.ranks.now s x) result }
    {
        let g = self.game;
        let ranks = self.ranks;
        let own = rank_at(ranks, s)?;
        let most = limit(g.is_fair(), self.cap, g.has_condition(x), own);
        first_output(g, s, x, |t| is_below(ranks, most, t))
    }
}

// The environment's ranks on a game. A type of its own, with no cap: one for both players would have to say in each method whose ranks it has.
#[derive(Clone, Copy)]
struct EnvironmentRanks<'a> {
    game: &'a Game<'a>,
    ranks: &'a Ranks,
    ghost ranked: { ∥ Ranked (arena_of game.now) false (not (is_fair game.now.mode)) game.now.states ranks.now ∥₁ },
}

impl<'a> EnvironmentRanks<'a> {
    // The lowest input that the ranks allow on state s, if the state has a rank.
    fn input(&self, s: usize) -> Option<usize>
        requires { s < state_limit }
        ensures { Move self.now.ranks.now s
            (AllowedInput (is_fair self.now.game.now.mode) (arena_of self.now.game.now) self.now.ranks.now s) result }
    {
        let g = self.game;
        let ranks = self.ranks;
        let own = rank_at(ranks, s)?;
        let n = g.states as Rank;
        for x in 0..g.inputs {
            let most = limit(!g.is_fair(), n, !g.has_condition(x), own);
            if first_output(g, s, x, |t| !is_below(ranks, most, t)).is_none() {
                return Some(x);
            }
        }
        None
    }
}

// The byte of a move.
fn move_byte(choice: Option<usize>) -> u8
    requires { IfSome choice (λ k. k < 256) }
    ensures { result ≡ move_byte choice }
{
    choice.map_or(NO_MOVE, |k| k as u8)
}

// The system's byte for input x on state s: by the near ranks where the state has one, else by the far ones.
fn mixed_byte(near: &SystemRanks, far: &SystemRanks, s: usize, x: usize) -> u8
    requires same_game { (far.now.game.now ≡ near.now.game.now) × (far.now.cap ≡ near.now.game.now.states) }
    requires in_range { (s < state_limit) × (x < near.now.game.now.inputs) }
    ensures { MixedByte (is_fair near.now.game.now.mode) (arena_of near.now.game.now) near.now.cap near.now.ranks.now far.now.ranks.now s x result }
{
    if near.ranks[s] == 0 {
        return move_byte(far.output(s, x));
    }
    move_byte(near.output(s, x))
}

// Fills the system's table.
fn fill_system(near: &SystemRanks, far: &SystemRanks, system: &mut [u8])
    requires same_game { (far.now.game.now ≡ near.now.game.now) × (far.now.cap ≡ near.now.game.now.states) }
    requires inputs_nonzero { (0 < near.now.game.now.inputs) × (near.now.game.now.states * near.now.game.now.inputs ≤ length system.old) }
    ensures { SystemFilled (is_fair near.now.game.now.mode) (arena_of near.now.game.now) near.now.cap near.now.ranks.now far.now.ranks.now
        system.old system.new }
{
    let inputs = near.game.inputs;
    let total = near.game.states * inputs;
    for k in 0..total {
        system[k] = mixed_byte(near, far, k / inputs, k % inputs);
    }
}

// Fills the environment's table.
fn fill_environment(ranks: &EnvironmentRanks, environment: &mut [u8])
    requires { ranks.now.game.now.states ≤ length environment.old }
    ensures { EnvironmentFilled (is_fair ranks.now.game.now.mode) (arena_of ranks.now.game.now) ranks.now.ranks.now
        environment.old environment.new }
{
    let states = ranks.game.states;
    for s in 0..states {
        environment[s] = move_byte(ranks.input(s));
    }
}

// Solves the game, fills both tables and gives the round number of the start, which is 0 where the system does not win from it. A number and no `Option`:
// `Verdict` in specs/Tables.antt is about this number.
pub(crate) fn decide(g: &Game, start: usize, system: &mut [u8], environment: &mut [u8]) -> usize
    requires start_lt_states { start < g.now.states }
    requires inputs_nonzero { (0 < g.now.inputs) × (0 < g.now.outputs)
        × (g.now.states * g.now.inputs ≤ length system.old) × (g.now.states ≤ length environment.old) }
    ensures tables { Tables g.now.mode (arena_of g.now)
        system.old environment.old system.new environment.new }
    ensures verdict { Verdict g.now.mode (arena_of g.now)
        system.new environment.new start result }
{
    let solution = solve(g, start);
    let near = SystemRanks {
        game: g,
        ranks: &solution.near,
        cap: solution.limit,
    };
    let far = SystemRanks {
        game: g,
        ranks: &solution.players.system,
        cap: g.states as Rank,
    };
    let inputs = EnvironmentRanks {
        game: g,
        ranks: &solution.players.environment,
    };
    fill_system(&near, &far, system);
    fill_environment(&inputs, environment);
    usize::from(solution.round)
}

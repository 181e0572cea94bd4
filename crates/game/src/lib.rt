// The game on an automaton: the two tables, the call for a rule, the call for a given automaton, and the follower.
// A number is turned by `as` where a byte or a rank is proved to hold it: `try_from` would have a case that never is.
#![tactic(auto)]

pub mod answer;
mod arena;
mod below;
mod checks;
pub mod follow;
pub mod given;
pub mod limits;
mod needs;
mod rounds;
pub mod rule;
mod search;
mod solve;
mod tables;
mod wide;

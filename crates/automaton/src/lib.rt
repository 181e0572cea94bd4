// The automaton of a rule, the mask of a condition, and the trial of a rule on a list of letters.
// A number is turned by `as` where std has no `From`, between usize and u64, or where a byte or the mask is proved to hold it: `try_from` would have a case
// that never is.
#![tactic(auto)]

pub mod alphabet;
mod bits;
pub mod condition;
pub mod construct;
mod coordinates;
mod evaluate;
mod explore;
mod fill;
mod fold;
mod gather;
pub mod limits;
mod mask;
mod operators;
mod states;
mod table;
mod tabulate;
mod texts;
mod tree;
pub mod trial;
mod twins;
mod valuation;

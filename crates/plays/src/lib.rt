// Plays, strategies and who wins a game: definitions and theorems. The one thing in code is the mode, a declared type that the definitions name.
#![tactic(auto)]

pub mod mode;

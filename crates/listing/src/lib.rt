// What the program prints for its input.
#![tactic(auto)]

mod input;
pub mod limits;
pub mod list;
mod render;
pub mod respond;
mod write;

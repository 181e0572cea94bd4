// The reader: from a text to the nodes of its formula, or to the place of its first bad byte.
#![tactic(auto)]

mod levels;
pub mod limits;
mod marks;
pub mod nodes;
pub mod reading;
pub mod refusal;
mod scan;
mod size;
pub mod vocabulary;

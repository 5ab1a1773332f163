//! Moving a whole model: from any reading onto a board, and from any reading into any store.
#![tactic(auto)]

pub mod load;
mod pass;
mod rows;
pub mod write_out;

//! The organisational model: facts, what reads them, what stores them, and chains of pairs.
#![tactic(auto)]

pub mod chains;
pub mod fact;
pub mod possible_fact;
pub mod reading;
pub mod side;
pub mod store;

//! The small plant that the programs tell of: its facts, its crews at noon, and sets as people write them.
#![tactic(auto)]

pub mod crews;
pub mod facts;
pub mod nodes;
pub mod show;

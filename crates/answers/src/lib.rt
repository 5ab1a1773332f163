//! Who qualifies for a rule: its reading, written once for every kind of answer, and when a rule is valid.
#![tactic(auto)]

mod actors;
pub mod answer;
pub mod everyone;
pub mod one;
pub mod reader;
mod stack;
pub mod validity;

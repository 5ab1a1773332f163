//! The engine: a released model and book, and at most one change in preparation, over any store.
#![tactic(auto)]

mod asking;
pub mod change;
mod checking;
pub mod engine;
mod opening;
pub mod refusal;
mod releasing;
mod stepping;
pub mod ticket;

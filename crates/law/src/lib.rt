//! The law over runs: any list of calls to an engine, with any tickets, and what holds at every moment of it.
#![tactic(auto)]

mod calls;
pub mod carried;
pub mod order;
mod purse;
pub mod run;

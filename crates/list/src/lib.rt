//! The fact list: a store in the caller's words, one word for each fact.
#![tactic(auto)]

pub mod kept;
pub mod list;
pub mod store;
#[cfg(test)]
mod tests;
mod words;

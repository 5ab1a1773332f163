//! Access rules: node lists, the rules that they are, and the book that keeps them.
#![tactic(auto)]

pub mod book;
pub mod bytes;
pub mod change;
pub mod edit;
pub mod fault;
pub mod filled;
pub mod node;
mod node_list;
pub mod reading;
pub mod rule;
pub mod scan;
#[cfg(test)]
mod tests;
pub mod text;

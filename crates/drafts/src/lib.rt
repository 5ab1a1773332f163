//! A model and a book in preparation, and the steps that edit them.
#![tactic(auto)]

pub mod draft;
mod entities;
mod inputs;
mod joining;
mod joins;
mod pair;
mod pairing;
mod pairs;
mod parting;
mod placed;
mod placing;
mod range;
pub mod refusal;
mod regroup;
mod regrouped;
mod regrouping;
mod replace;
mod rulebook;
mod side_rows;
mod splits;
pub mod step;
mod steps;
#[cfg(test)]
mod tests;

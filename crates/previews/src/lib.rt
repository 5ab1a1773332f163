//! What a change would do to the people of a rule, before it is released.
#![tactic(auto)]

pub mod effect;
pub mod preview;

// What the programs share in showing something to a person. The libraries below hold no words for people, so that what they hold is
// printed by types of this crate.
#![tactic(auto)]

pub mod cut;
pub mod fault;
pub mod layer;
pub mod quoted;

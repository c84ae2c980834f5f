// The practice day, by definition.
#![tactic(auto)]

pub mod laws;
pub mod marked;

// What is wrong with a frame, in words for people.
#![tactic(auto)]

pub mod rule;

// Files that a program is given: how it reads one, and what it says of one that it cannot use.
#![tactic(auto)]

pub mod input;
pub mod sheet;

// What the processor answers to a frame: taken, passed over, rejected or cut, with a code and a row.
#![tactic(auto)]

pub mod answer;
pub mod code;
pub mod row;

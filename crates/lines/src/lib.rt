// What the processor makes of a frame that comes on a line.
#![tactic(auto)]

pub mod judge;

// The tape: a line of text for each trade report that was taken.
#![tactic(auto)]

mod line;
pub mod tape_line;

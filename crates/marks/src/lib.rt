// The effects of a mass trading action: a line tells the processor to bar, resume or wipe out its quotes in a range of securities.
#![tactic(auto)]

pub mod range;
pub mod sweep;
pub mod trading_action;

// Frames as bytes: numbers in their parts, the header, the trade report, the mass trading action, and recordings of frames.
#![tactic(auto)]

pub mod frames;
pub mod header;
pub mod mass_action;
pub mod number;
mod part;
pub mod recording;
pub mod trade_report;

// The trade report as a kind of frame.
#![tactic(auto)]

mod condition_rows;
mod frame_parts;
pub mod trade_kind;

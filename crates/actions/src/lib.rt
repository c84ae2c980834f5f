// The market center mass trading action as a kind of frame.
#![tactic(auto)]

pub mod action_kind;
mod frame_parts;

// How a frame is judged: the rows of its kind, tried from top to bottom.
#![tactic(auto)]

pub mod asked;
pub mod context;
pub(crate) mod header_rows;
pub mod kind;

// A text cut at a separator, as a sheet is cut into lines and a line into fields.
#![tactic(auto)]

pub mod cut;

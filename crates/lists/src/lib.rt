// The list sheet of a practice day, and the market list that it gives: the securities, and the lines with their originators.
#![tactic(auto)]

pub mod list_row;
pub mod list_sheet;
pub mod market_list;

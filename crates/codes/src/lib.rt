// The book sheet of a practice day: the codes that its reports may carry, row by row.
#![tactic(auto)]

pub mod book_row;
pub mod book_sheet;

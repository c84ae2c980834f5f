// Code books: which codes a trade report may carry, and which of them may go together.
#![tactic(auto)]

pub mod code_book;
pub mod sheet_book;
pub mod standard_book;

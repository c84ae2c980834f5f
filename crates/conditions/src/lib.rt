// Sale conditions: the matrix of what each byte says to the statistics, and what four bytes say together.
#![tactic(auto)]

pub mod condition;
pub mod matrix;

#![tactic(auto)]

// Examples of the statistics. What they expect is typed here from the published matrix, and not taken from the program.
#[cfg(test)]
mod matrix_tests;
#[cfg(test)]
mod sheet_tests;

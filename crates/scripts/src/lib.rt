// The scripts of practice days: texts with one call a line, as a person writes them.
#![tactic(auto)]

mod call_name;
pub mod hex_word;
pub mod malformed;
pub mod number;
pub mod read_call;
pub mod script_call;
pub mod script_lines;
mod word;
mod word_form;

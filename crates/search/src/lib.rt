// Finding a security in the market list by its symbol.
#![tactic(auto)]

pub mod place;

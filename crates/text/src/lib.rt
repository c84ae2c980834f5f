// Text in the formats: printable bytes, symbols of securities, decimal numbers.
#![tactic(auto)]

pub mod decimal;
pub mod printable;
pub mod symbol;

// What the processor answers to an inquiry about a security.
#![tactic(auto)]

pub mod inquiry;
pub mod security_state;

// What a practice day keeps of its lines and its securities, and why it refuses a call.
#![tactic(auto)]

pub mod line_status;
pub mod refusal;
pub mod security_status;

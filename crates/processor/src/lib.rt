// The processor of a practice day.
#![tactic(auto)]

mod floor;
mod parts;
mod practice_day;
mod ticket;

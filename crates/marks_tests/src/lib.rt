#![tactic(auto)]

// Examples of finding securities and of mass trading actions, worked out by hand.
#[cfg(test)]
mod action_tests;
#[cfg(test)]
mod five;
#[cfg(test)]
mod place_tests;
#[cfg(test)]
mod sweep_tests;

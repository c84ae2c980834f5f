#![tactic(auto)]

// Lines of scripts by hand, good and bad, and what each is read as.
#[cfg(test)]
mod bad_lines;
#[cfg(test)]
mod expect;
#[cfg(test)]
mod good_lines;
#[cfg(test)]
mod whole_scripts;
#[cfg(test)]
mod words;

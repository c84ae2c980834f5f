#![tactic(auto)]

// Examples for the judgement of frames. What each frame is told was worked out by hand from the published tables of rows, which are
// typed here once more, never by the code under test.
#[cfg(test)]
mod bounds;
#[cfg(test)]
mod frames;
#[cfg(test)]
mod mass_rows;
#[cfg(test)]
mod readings;
#[cfg(test)]
mod told;
#[cfg(test)]
mod trade_rows;

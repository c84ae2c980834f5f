// Examples for the bytes of frames and their text. The expected values were worked out from the layouts by hand or by an
// independent script, never by the code under test.
#![tactic(auto)]

#[cfg(test)]
mod headers;
#[cfg(test)]
mod numbers;
#[cfg(test)]
mod recordings;
#[cfg(test)]
mod reports;
#[cfg(test)]
mod texts;

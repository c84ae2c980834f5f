// Examples for what the processor writes. The expected bytes were worked out from the layouts by hand, never by the code
// under test.
#![tactic(auto)]

#[cfg(test)]
mod inquiries;
#[cfg(test)]
mod lines;

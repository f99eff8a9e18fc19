//! Tests of digits, records, packets, telegrams and messages that only code can ask: how far the limits of what
//! is built go, which values are the same, what a splitter answers, and texts of errors.
//!
//! They call public items alone, so that no other crate is proved again for them. What can be asked of
//! the program stands as data in `tests/cases` at the top.
#![tactic(auto)]

#[cfg(test)]
mod digits;
#[cfg(test)]
mod greatest;
#[cfg(test)]
mod numbers;
#[cfg(test)]
mod same;
#[cfg(test)]
mod slices;
#[cfg(test)]
mod spelled;
#[cfg(test)]
mod splitter;
#[cfg(test)]
mod texts;
#[cfg(test)]
mod views;

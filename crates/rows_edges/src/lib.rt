//! Tests of what comes in and goes out. Nothing here is called by other crates. They are of:
//!
//! - plain values;
//! - commands, sketches and answers as JSON;
//! - readers and writers of one's own, with short reads and writes and devices that fail at any call;
//! - how the program ends, and how many workers words ask for.
#![tactic(auto)]

#[cfg(test)]
mod answers;
#[cfg(test)]
mod commands;
#[cfg(test)]
mod devices;
#[cfg(test)]
mod endings;
#[cfg(test)]
mod farms;
#[cfg(test)]
mod refusals;
#[cfg(test)]
mod streams;
#[cfg(test)]
mod values;
#[cfg(test)]
mod words;

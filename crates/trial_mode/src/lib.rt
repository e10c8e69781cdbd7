//! A trial of the capture in memory.
//!
//! `trial` makes the streams of the generator, captures them as a capture by words does that name sources and an output
//! alone, checks the file, and writes what it found. `specs/Lines` has the lines, `specs/Streams` the streams and the
//! settings, `specs/Sums` what is counted, and `specs/Trials` what a trial did.
#![tactic(auto)]

mod checking;
mod ending;
mod lines;
mod reporting;
mod settings;
mod stop;
mod streams;
#[cfg(test)]
mod tests;
mod trying;

pub use trying::{Trialed, trial};

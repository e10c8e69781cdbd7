//! Joining the files of a ring into one.
//!
//! `join_files` opens the files of some names, each once and in order, reads each to its end, and writes the joined file.
//! `specs/Joining` has what was done, by the exit, and `specs/Lines` the lines.
#![tactic(auto)]

mod inputs;
mod joined;
mod joining;
mod lines;
mod stop;
#[cfg(test)]
mod tests;

pub use joined::Joined;
pub use joining::join_files;

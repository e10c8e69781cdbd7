//! What a capture does, from its history alone, and what a whole capture comes to.
//!
//! `replay` runs a desk over the writer's entries of a history and answers all acts. They are proved to be the acts that
//! are defined for these entries, so whoever has a history can tell which files and messages it makes.
//!
//! The laws join a capture's history, its writer and its files.
#![tactic(auto)]

mod laws;
mod replaying;

pub use laws::{
    a_small_capture, done_comes, fates_are_final, files_are_grammatical, files_hold_the_written,
    fronts_hold_the_first, full_files, legal_is_replayed, recorded_is_headline, said_is_true,
    statistics_are_counts, taken_are_the_writers, views_reach_the_announced,
};
pub use replaying::replay;

#[cfg(test)]
mod tests;

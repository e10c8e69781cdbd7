//! What the modes of `dumpcap` have in common: lines that are written to a sink, texts that are added to a file, sources
//! that are read whole, and what a mode comes to that reads one source.
//!
//! The definitions are `specs/Written` (a text was written whole, or a prefix of it), `specs/Sources` (a source that
//! couldn't be opened or read), `specs/Reading` (one that was read to its end) and `specs/Outlets` (the first of what there
//! was to do was done).
#![tactic(auto)]

mod appending;
mod reading;
mod reported;
mod unread;
mod writing;

pub use appending::append_text;
pub use reading::{empty_piece, read_content};
pub use reported::Reported;
pub use unread::Unread;
pub use writing::{write_open_failed, write_read_failed, write_text};

//! What a capture says: its messages to a follower, and the report at its end.
//!
//! Each message and each line of the report is one text, defined in `specs/`. A message is spelled as `sync_pipe` spells
//! it, so a reader hears it; a line ends with a line feed. `specs/Words` has how a source ended in words, `specs/Messages`
//! the messages and which come at the end, `specs/Report` the report, line by line.
#![tactic(auto)]

mod endings;
mod lines;
mod messages;
mod texts;
mod words;

pub use endings::{SourceEnd, ending_of, is_early};
pub use lines::{files_line, interface_line, output_line, source_line};
pub use messages::{count_message, drops_message, early_message, failure_message, file_message};

#[cfg(test)]
mod tests;

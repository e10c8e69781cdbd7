//! Lists of options (draft-ietf-opsawg-pcapng, section 3.5), read in either byte order and written little-endian.
//!
//! What a list holds is a relation on its bytes (`specs/Options`): whole options, one after another, up to the end or to
//! `opt_endofopt`. `read_notes` is proved to answer the options exactly where there are such, and else the place of the
//! first option whose value runs over the end. `write_notes` gives the one spelling (`specs/Spelling`).
//!
//! The laws are the clauses of functions that do nothing: a list has one reading, and what is spelled is read back.
#![tactic(auto)]

mod front;
mod laws;
mod layout;
mod reading;
mod writing;

pub use front::{Front, option_front_of};
pub use laws::{options_are_one, spelled_is_read};
pub use layout::{OPT_ENDOFOPT, OPTION_HEADER_LEN};
pub use reading::{NotesFault, read_notes};
pub use writing::write_notes;

#[cfg(test)]
mod tests;

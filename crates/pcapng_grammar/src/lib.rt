//! A checker of whole output files: pcapng (draft-ietf-opsawg-pcapng) as this program writes it.
//!
//! A file is a section header, then interface descriptions and enhanced packets, then one statistics block for each
//! description, in the order of their numbers, and nothing behind. `specs/Files` has that as a relation on the bytes, and
//! `specs/Defects` the first defect of bytes that aren't such a file. `check_file` is proved to answer the facts exactly
//! for files, and else the first defect and its place.
#![tactic(auto)]

mod blocks;
mod check;
mod facts;
mod fault;
mod laws;
mod layout;
mod options;
mod order;

pub use blocks::FileBlock;
pub use check::check_file;
pub use facts::{Counted, CountedList, FileFacts, Totals};
pub use fault::{CheckFault, What};
pub use laws::{files_have_no_defect, options_are_spelled, texts_are_files};
pub use layout::MAX_FILE_LEN;

#[cfg(test)]
mod tests;

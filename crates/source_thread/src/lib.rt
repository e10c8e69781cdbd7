//! A source's thread.
//!
//! `read_source` reads one source to its end: it joins the interfaces and offers the packets of its bytes at the queue of
//! a capture, and ends. `read_paced` does the same and waits where the queue has no room (`pacing`).
//!
//! What is proved of a source is said of its own entries in the history of the queue (`specs/Told`): they are those of the
//! events of all bytes that were taken of it, in order, with one End behind them, and the ending has its cause. No clause
//! says how the reads were cut, when the source waited, or anything of another source.
//!
//! A reader must believe `specs/Told` and `specs/Sources`. `specs/inner` has what private functions alone cite: what the
//! reader of the bytes has given and the sender has taken on (`Sending`), and the words of the reader (`Readers`).
#![tactic(auto)]

mod ended;
mod entering;
mod next;
mod progress;
mod reader;
mod reading;
mod sender;
mod source;

pub use ended::Ended;
pub use source::{read_paced, read_source};

#[cfg(test)]
mod tests;

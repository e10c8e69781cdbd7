//! Per interface, how many packets were received, dropped, flushed and written.
//!
//! `Tally` keeps these four counts by interface number, with all its memory taken when it is made. Each call raises
//! one count of one interface, and `fill` hands all counts out in room that the caller lends.
//!
//! Proved of each call: the counts afterwards are the counts before with just that one change (`specs/Tally`), and an
//! interface is refused exactly where 256 are counted.
#![tactic(auto)]

mod tally;

pub use tally::Tally;

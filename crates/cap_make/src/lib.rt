//! A generator of captures for tests: the texts of sources, from a start alone.
//!
//! `make_source` makes the text of one of 1 to 64 sources. `specs/Generator` says which packets it has, and
//! `specs/Streams` how they are written: sources with even numbers in classic pcap (draft-ietf-opsawg-pcap), those with
//! odd numbers in pcapng (draft-ietf-opsawg-pcapng). The texts are the same on every machine. Reading the text of a
//! source back in its format gives its interface, these packets and a clean end, which are the clauses of `made_is_read`.
#![tactic(auto)]

mod generator;
mod laws;
mod source;

pub use laws::made_is_read;
pub use source::make_source;

#[cfg(test)]
mod tests;

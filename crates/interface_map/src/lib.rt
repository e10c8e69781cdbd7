//! The numbers of interfaces: in the output, and as each source counts its own.
//!
//! An output numbers the interfaces of all sources in one row, from 0, in the order in which they are joined
//! (draft-ietf-opsawg-pcapng, section 4.2: an interface's number is the number of interface descriptions before its own).
//! `Map` gives these numbers and keeps which source each belongs to. `Numbers` translates: a source's own number of an
//! interface, again counted from 0, to the number in the output.
//!
//! Proved: `Map::add` gives a number that it never gave before, and the earlier ones keep their source;
//! `Numbers::get` answers the number that was put at that place. Each holds at most 256 and refuses exactly there, and
//! all memory is taken by `new`.
#![tactic(auto)]

mod map;
mod numbers;

pub use map::Map;
pub use numbers::Numbers;

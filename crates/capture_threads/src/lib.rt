//! All sources of a capture at once, each in a thread of its own, over one queue.
//!
//! `begin` takes all memory before the first turn: the cell of the queue, a place for each source, and the writer's end of
//! the queue. A capture then joins two threads: `read_places`, which reads each source in a thread of its own, and its
//! writer. `finish` puts the passes that they leave together, closes the cell, and gives back the sources as they ended and
//! the one history.
//!
//! What is proved of a source (`source_thread`, `told`) is said of its own entries, and no fact speaks of two of them: behind
//! `finish` each one's own entries are those that it has in the one history, which is legal. So are the writer's.
#![tactic(auto)]

mod capture;
mod place;
mod sources;

pub use capture::{Begun, begin, finish, read_places};
pub use place::Place;

#[cfg(test)]
mod tests;

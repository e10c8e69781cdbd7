//! The queue between the sources of a capture and its writer.
//!
//! `Queue` is one sequential object behind a turn: sources join interfaces, offer packets and end; the writer takes what
//! is due, asks for the counts and stops the capture. `Port` is a source's end of it and `Drain` the writer's.
//!
//! A history is the list of all calls with their answers (`cap_base`, `specs/Histories` to `Legal`). Proved of each
//! call: after any legal history that the queue stands for, the call's answer is the one that the history calls for,
//! and the queue then stands for the history with this call behind it. What is due, what stands, which packets were
//! dropped, flushed and written, and every count are there counted over the whole history; the queue keeps a ring and
//! running sums. An offer through a `Port` is never answered `Foreign`, and a packet that comes back is the offered
//! one, under the source's own number of its interface.
//!
//! A `Batch` has up to 64 packets that are offered in one turn, each judged after those before it. It comes back with the
//! verdicts, with the packets that weren't accepted, each under its interface's number in the output, and with what
//! stands in the queue after the last of them.
//!
//! A queue takes all its memory in `Queue::new` and a batch in `Batch::new`. A join, an offer, an end and a take cost the
//! same however much stands; a stop goes over what is due.
//!
//! A reader must believe `specs/Queue`, `Batches`, `Calls`, `Ends` and `Fit`, which name no private field. `specs/inner`
//! has what private functions alone cite: the fields of the queue and of its ends (`Fields`), how a call changes them
//! (`Changes`), and what the tests keep of a writer's entries (`Writer`).
#![tactic(auto)]

mod batch;
mod batches;
mod calls;
mod drain;
mod ended;
mod endings;
mod joins;
mod offers;
mod port;
mod queue;
mod stops;
mod takes;
mod turns;

pub use batch::{Batch, Standing};
pub use calls::{Call, Reply};
pub use drain::Drain;
pub use port::Port;
pub use queue::Queue;

#[cfg(test)]
mod batch_tests;
#[cfg(test)]
mod tests;

use cap_outside::Opened;
use packet_queue::{Port, Queue};
use source_thread::Ended;
use turn_cell::Pass;

/// A source's place among the threads.
#[derive(Drop)]
pub enum Place<S> {
    /// Its thread hasn't begun.
    Ready(Port, Opened<S>),
    /// Its thread has it.
    Running,
    /// Its thread is over.
    Over(Ended<S>, Pass<Queue>),
}

ghost use Rattle.std.specs.Prelude.{◌≡◌, ◌≤◌, [], IfOk};
ghost use Rattle.packet_queue.specs.Queue.{QueueStandsFor, limits_of, sources_of};

use crate::calls::{Call, Reply};
use crate::ended::Ended;
use cap_base::{
    Entry, Item, Limits, MAX_INTERFACES, MAX_LOST_PACKETS, MAX_SOURCES, MAX_STANDING_PACKETS,
    NoMemory,
};
use circular_buffer::HeapCircularBuffer;
use drop_counters::Tally;
use interface_map::Map;
use std::alloc::Global;
use turn_cell::TurnObject;

/// The most items that are due: packets, interfaces, and the first ending of each source.
const LINE_CAPACITY: usize = MAX_STANDING_PACKETS + MAX_INTERFACES + MAX_SOURCES;

/// The queue of a capture: what sources have given and the writer has not yet taken.
///
/// It is used through turns, by `Port` and `Drain`. Each turn but a stop moves no item but its own; the first stop goes
/// over all that is due.
#[derive(Drop)]
pub struct Queue {
    pub(crate) limits: Limits,
    pub(crate) sources: u8,
    /// What is due, in order.
    pub(crate) items: HeapCircularBuffer<Item>,
    /// How many packets stand in it.
    pub(crate) packets: u64,
    /// How many bytes their bodies have.
    pub(crate) bytes: u64,
    /// The sources of the numbered interfaces.
    pub(crate) map: Map,
    pub(crate) ended: Ended,
    /// Whether the capture was stopped.
    pub(crate) stopped: bool,
    /// The counts of each interface. A taken packet counts as written until a stop says that it is lost.
    pub(crate) tally: Tally,
    /// The interface numbers of the packets taken last, of which a stop may lose some.
    pub(crate) last_taken: HeapCircularBuffer<u16>,
}

impl Queue {
    /// The queue of so many sources, with nothing in it. All memory is taken here.
    ///
    /// There are 1 to 64 sources, and 1 to 16,384 packets may stand.
    #[tactic(auto, unfolding(crate::specs::Queue::limits_of, crate::specs::Queue::sources_of))]
    pub fn new(alloc: Global, limits: Limits, sources: u8) -> Result<Queue, NoMemory>
        requires limits { (1 ≤ limits.packets) × (limits.packets ≤ MAX_STANDING_PACKETS) }
        requires sources { (1 ≤ sources) × (sources ≤ MAX_SOURCES) }
        ensures limits { IfOk result (λ q. limits_of q ≡ limits) }
        ensures sources { IfOk result (λ q. sources_of q ≡ sources) }
        ensures stands { IfOk result (λ q. QueueStandsFor q q []) }
    {
        Ok(Queue {
            limits,
            sources,
            items: HeapCircularBuffer::with_capacity(alloc, LINE_CAPACITY)?,
            packets: 0,
            bytes: 0,
            map: Map::new(alloc)?,
            ended: Ended::new(alloc, sources)?,
            stopped: false,
            tally: Tally::new(alloc)?,
            last_taken: HeapCircularBuffer::with_capacity(alloc, MAX_LOST_PACKETS)?,
        })
    }
}

impl TurnObject for Queue {
    ghost use Rattle.packet_queue.specs.Queue.{QueueStandsFor};
    ghost use Rattle.packet_queue.specs.Calls.{entries_of, Admits, IsReplyTo};

    type Call = Call;

    type Reply = Reply;

    type Entry = Entry;

    ghost entries = { entries_of };

    ghost stands_for = { QueueStandsFor };

    ghost admits = { Admits };

    ghost answers = { IsReplyTo };

    fn step(&mut self, call: Call) -> Reply {
        match call {
            Call::Join { source, iface } => Reply::Joined(self.join(source, iface)),
            Call::Offer { source, packet } => {
                let (verdict, back) = self.offer(source, packet);
                Reply::Offered { verdict, back }
            }
            Call::Offers { source, batch } => Reply::OfferedAll(self.offer_all(source, batch)),
            Call::End { source, how } => {
                self.end(source, how);
                Reply::Ended
            }
            Call::Take { now: _ } => Reply::Took(self.take()),
            Call::Tally { now: _, room } => Reply::Told(self.tally.fill(room)),
            Call::Stop { why: _, lost } => {
                self.stop();
                self.lose(lost);
                Reply::Stopped
            }
        }
    }
}

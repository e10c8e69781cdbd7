//! The reader of a source's bytes: all that the crate uses of it.
ghost use Rattle.std.specs.Prelude.{◌≡◌, ◌≤◌, ◌<◌, ◌+◌, ◌^◌, ◌↔◌, [], length, IfOk, OnOk, OnErr};
ghost use Rattle.source_thread.specs.inner.Readers.{StandsFor, IsDrained, Feeds, Gives, Steps, IsFitStep, IsWaiting, StepAdvances, fed_count, name_of};

use cap_base::{Name, NoMemory, Step};
use pacing::Pace;
pub use source_reader::Reader;
use std::alloc::Global;
use std::sync::Wait;

/// A reader for a source of this name, that was fed nothing, and cuts packets to the snap length.
pub fn new_reader(alloc: Global, name: &Name, snap: Option<u32>) -> Result<Reader, NoMemory>
    requires { length name.now ≤ 65535 }
    ensures name { IfOk result (λ r. name_of r ≡ name.now) }
    ensures snap { IfOk result (λ r. r.snap ≡ snap) }
    ensures waits { IfOk result IsWaiting }
    ensures drained { IfOk result IsDrained }
    ensures begun { IfOk result (λ r. fed_count r ≡ 0) }
    ensures stands { IfOk result (λ r. StandsFor r [] []) }
{
    Reader::new(alloc, name.copy()?, snap)
}

/// Feeds a whole piece.
pub fn feed_piece(reader: &mut Reader, bytes: &[u8]) -> Result<(), NoMemory>
    requires waits { IsWaiting reader.old }
    requires short { length bytes.now ≤ 65536 }
    requires fits { fed_count reader.old + length bytes.now ≤ 2 ^ 62 }
    ensures fed { OnOk result (Feeds reader.old reader.new bytes.now) }
    ensures sum { OnOk result (fed_count reader.new ≡ fed_count reader.old + length bytes.now) }
    ensures name { name_of reader.new ≡ name_of reader.old }
    ensures snap { reader.new.snap ≡ reader.old.snap }
    ensures err { OnErr result (reader.new ≡ reader.old) }
{
    reader.feed(bytes)?;
    Ok(())
}

/// Gives the reader the memory of spent bodies, where it has none left and such memory came back.
fn refill_reader<R: Wait>(rt: &R, pace: &Pace, reader: &mut Reader)
    ensures { reader.new ≡ reader.old }
{
    if !reader.wants_spares() {
        return;
    }
    if let Some(spares) = pace.spent_bodies(rt) {
        let emptied = reader.refill(spares);
        pace.give_back_empty(rt, emptied);
    }
}

/// The next step, whose interface or packet is fit for the queue. The reader first takes spare memory, where it has none.
pub fn next_step<R: Wait>(rt: &R, pace: &Pace, reader: &mut Reader) -> Result<Step, NoMemory>
    ensures step { IfOk result (λ step. Steps reader.old reader.new step) }
    ensures fit { IfOk result IsFitStep }
    ensures advances { IfOk result (λ step. StepAdvances reader.old reader.new step) }
    ensures same { fed_count reader.new ≡ fed_count reader.old }
    ensures name { name_of reader.new ≡ name_of reader.old }
    ensures snap { reader.new.snap ≡ reader.old.snap }
    ensures err { OnErr result (Gives reader.old reader.new []) }
{
    refill_reader(rt, pace, reader);
    reader.next()
}

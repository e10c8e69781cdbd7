//! A source, read to its end.
ghost use Rattle.std.specs.Prelude.{◌≡◌, ◌≤◌, ◌<◌, ◌+◌, ◌^◌, [], true, false, length, OnOk, OnErr, IfOk, IfErr, Option, List, ℕ};
ghost use Rattle.cap_base.specs.declared.endings.How.TheVariants as how;
ghost use Rattle.turn_cell.specs.Passes.{is_worn};
ghost use Rattle.packet_queue.specs.Ends.{port_pass};
ghost use Rattle.source_thread.specs.Sources.{source_facts, whole_of};
ghost use Rattle.source_thread.specs.inner.Readers.{StandsFor, IsDrained, IsWaiting, fed_count, name_of};
ghost use Rattle.source_thread.specs.inner.Sending.{IsSender, AllNumbered, IsGiven, Keeps, IsBreak, Reads, ReadsFront, ReadIs, SourceEntered, entries_of, number_of, waiting};

use crate::entering::enter_events;
use crate::progress::Progress;
use crate::reader::{Reader, feed_piece};
use crate::sender::Sender;
use cap_base::How;
use cap_outside::Source;
use packet_queue::Queue;
use std::sync::Wait;
use turn_cell::Cell;

/// How many bytes a read asks for.
pub const PIECE_LEN: usize = 65_536;

/// The most bytes of one source.
const MOST_TAKEN: u64 = 1 << 62;

/// One read, whose bytes are fed and whose events are entered.
fn read_piece<S: Source, R: Wait>(
    rt: &R,
    cell: &Cell<Queue>,
    source: &mut S,
    sender: &mut Sender,
    reader: &mut Reader,
    piece: &mut [u8],
) -> Result<Progress, How>
    requires sender { IsSender cell.now sender.old }
    requires numbered { AllNumbered sender.old }
    requires empty { waiting sender.old ≡ [] }
    requires going { sender.old.flushed ≡ false }
    requires given { IsGiven reader.old sender.old }
    requires waits { IsWaiting reader.old }
    requires drained { IsDrained reader.old }
    requires some { 0 < length piece.old }
    requires short { length piece.old ≤ 65536 }
    requires fits { fed_count reader.old + length piece.old ≤ 2 ^ 62 }
    ensures sender { IsSender cell.now sender.new }
    ensures keeps { Keeps sender.old sender.new }
    ensures empty { waiting sender.new ≡ [] }
    ensures numbered { OnOk result (AllNumbered sender.new) }
    ensures reads { OnOk result ((t : Option (List ℕ)) → Reads t (S.taken source.old) reader.old sender.old → Reads t (S.taken source.new) reader.new sender.new) }
    ensures drained { OnOk result (IsDrained reader.new) }
    ensures progress { IfOk result (λ progress. ReadIs progress reader.old reader.new sender.new (S.left source.new) (S.ends source.old) (S.ends source.new) (S.faults source.old) (S.faults source.new)) }
    ensures front { OnErr result ((t : Option (List ℕ)) → Reads t (S.taken source.old) reader.old sender.old → ReadsFront (name_of reader.old) reader.old.snap t (S.taken source.new) sender.new) }
    ensures cause { IfErr result (λ how. IsBreak how sender.new) }
    ensures counts { OnErr result ((S.ends source.new ≡ S.ends source.old) × (S.faults source.new ≡ S.faults source.old)) }
    ensures name { name_of reader.new ≡ name_of reader.old }
    ensures snap { reader.new.snap ≡ reader.old.snap }
    ensures fed { fed_count reader.new ≤ fed_count reader.old + length piece.old }
    ensures few { fed_count reader.new ≤ 2 ^ 62 }
    ensures content { whole_of (S.taken source.new) (S.left source.new) ≡ whole_of (S.taken source.old) (S.left source.old) }
{
    let Ok(count) = source.read(piece) else {
        return Ok(Progress::Failed);
    };
    if count == 0 {
        return Ok(Progress::Ended);
    }
    let Ok(()) = feed_piece(reader, &piece[..count]) else {
        return Err(How::NoMemory);
    };
    let broken = enter_events(rt, cell, sender, reader)?;
    if broken {
        Ok(Progress::Broken)
    } else {
        Ok(Progress::Took)
    }
}

/// Reads a source until something ends it, and enters its events at the queue. A read is made only while no packet was
/// flushed.
pub fn read_pieces<S: Source, R: Wait>(
    rt: &R,
    cell: &Cell<Queue>,
    source: &mut S,
    sender: &mut Sender,
    reader: &mut Reader,
    piece: &mut [u8],
) -> How
    requires sender { IsSender cell.now sender.old }
    requires fresh { entries_of sender.old ≡ [] }
    requires empty { waiting sender.old ≡ [] }
    requires stands { StandsFor reader.old [] [] }
    requires begun { fed_count reader.old ≡ 0 }
    requires waits { IsWaiting reader.old }
    requires drained { IsDrained reader.old }
    requires piece { length piece.old ≡ 65536 }
    ensures sender { IsSender cell.now sender.new }
    ensures number { number_of sender.new ≡ number_of sender.old }
    ensures entered { SourceEntered (number_of sender.old) (name_of reader.old) reader.old.snap result (source_facts (S.taken source.old) (S.left source.old) (S.ends source.old) (S.faults source.old)) (source_facts (S.taken source.new) (S.left source.new) (S.ends source.new) (S.faults source.new)) (entries_of sender.new) }
    ensures worn { result ≡ how.Worn → is_worn (port_pass sender.new.port) ≡ true }
{
    let mut room = MOST_TAKEN;
    'pieces: while room > 0 {
        if sender.flushed {
            return How::Stopped;
        }
        let most = room.min(PIECE_LEN as u64) as usize;
        let before = reader.fed();
        match read_piece(rt, cell, source, sender, reader, &mut piece[..most]) {
            Ok(Progress::Took) => room -= reader.fed() - before,
            Ok(Progress::Failed) => return How::ReadFault,
            Ok(Progress::Ended) => return reader.finish(),
            Ok(Progress::Broken) => return reader.finish(),
            Err(how) => return how,
        }
    }
    How::TooLong
}

//! A source's thread.
ghost use Rattle.std.specs.Prelude.{◌≡◌, ◌≤◌, ◌+◌, ◌↔◌, [], true, false, length, IfOk, if◌then◌else◌};
ghost use Rattle.cap_base.specs.declared.limits.TheConstants.{MAX_NAME_LEN};
ghost use Rattle.cap_base.specs.declared.endings.How.TheVariants as hows;
ghost use Rattle.turn_cell.specs.Passes.{IsPassOf, is_worn, low, high};
ghost use Rattle.packet_queue.specs.Ends.{IsPortOf, mine, port_pass, port_source};
ghost use Rattle.source_thread.specs.Sources.{facts_of, source_facts, WasRead};
ghost use Rattle.source_thread.specs.inner.Sending.{IsSender, SourceEntered, entries_of, number_of, waiting};

use crate::ended::Ended;
use crate::reader::new_reader;
use crate::reading::{PIECE_LEN, read_pieces};
use crate::sender::Sender;
use cap_base::{How, Name, NoMemory};
use cap_outside::{Opened, Source};
use pacing::Pace;
use packet_queue::{Batch, Port, Queue};
use std::alloc::Global;
use std::sync::Wait;
use turn_cell::{Cell, Pass};

/// Room for one read.
fn empty_piece(alloc: Global) -> Result<Vec<u8>, NoMemory>
    ensures { IfOk result (λ v. length v.items ≡ 65536) }
{
    let mut piece = Vec::new(alloc);
    piece.resize(PIECE_LEN, 0)?;
    Ok(piece)
}

/// Reads a source to its end, if there is memory to begin.
fn read_with<S: Source, R: Wait>(
    rt: &R,
    alloc: Global,
    cell: &Cell<Queue>,
    sender: &mut Sender,
    name: &Name,
    snap: Option<u32>,
    source: &mut S,
) -> How
    requires sender { IsSender cell.now sender.old }
    requires fresh { entries_of sender.old ≡ [] }
    requires empty { waiting sender.old ≡ [] }
    requires name { length name.now ≤ MAX_NAME_LEN }
    ensures sender { IsSender cell.now sender.new }
    ensures number { number_of sender.new ≡ number_of sender.old }
    ensures entered { SourceEntered (number_of sender.old) name.now snap result (source_facts (S.taken source.old) (S.left source.old) (S.ends source.old) (S.faults source.old)) (source_facts (S.taken source.new) (S.left source.new) (S.ends source.new) (S.faults source.new)) (entries_of sender.new) }
    ensures worn { result ≡ hows.Worn → is_worn (port_pass sender.new.port) ≡ true }
{
    let Ok(mut piece) = empty_piece(alloc) else {
        return How::NoMemory;
    };
    let Ok(mut reader) = new_reader(alloc, name, snap) else {
        return How::NoMemory;
    };
    read_pieces(rt, cell, source, sender, &mut reader, &mut piece)
}

/// Reads a source to its end through its port, which comes back.
fn read_through<S: Source, R: Wait>(
    rt: &R,
    alloc: Global,
    cell: &Cell<Queue>,
    pace: Pace,
    port: Port,
    name: &Name,
    snap: Option<u32>,
    source: &mut S,
) -> (How, Port)
    requires port { IsPortOf cell.now port }
    requires fresh { mine (port_pass port) ≡ [] }
    requires name { length name.now ≤ MAX_NAME_LEN }
    ensures port { IsPortOf cell.now result.1 }
    ensures number { port_source result.1 ≡ port_source port }
    ensures entered { SourceEntered (port_source port) name.now snap result.0 (source_facts (S.taken source.old) (S.left source.old) (S.ends source.old) (S.faults source.old)) (source_facts (S.taken source.new) (S.left source.new) (S.ends source.new) (S.faults source.new)) (mine (port_pass result.1)) }
    ensures worn { result.0 ≡ hows.Worn → is_worn (port_pass result.1) ≡ true }
{
    let Ok(batch) = Batch::new(alloc) else {
        return (How::NoMemory, port);
    };
    let mut sender = Sender {
        port,
        batch: Some(batch),
        bytes: 0,
        flushed: false,
        pace,
    };
    let how = read_with(rt, alloc, cell, &mut sender, name, snap, source);
    let Sender { port, .. } = sender;
    (how, port)
}

/// Reads a source to its end, where there is one.
fn read_opened<S: Source, R: Wait>(
    rt: &R,
    alloc: Global,
    cell: &Cell<Queue>,
    pace: Pace,
    port: Port,
    name: &Name,
    snap: Option<u32>,
    source: &mut Option<S>,
) -> (How, Port)
    requires port { IsPortOf cell.now port }
    requires fresh { mine (port_pass port) ≡ [] }
    requires name { length name.now ≤ MAX_NAME_LEN }
    ensures port { IsPortOf cell.now result.1 }
    ensures number { port_source result.1 ≡ port_source port }
    ensures entered { SourceEntered (port_source port) name.now snap result.0 (facts_of S.taken S.left S.ends S.faults source.old) (facts_of S.taken S.left S.ends S.faults source.new) (mine (port_pass result.1)) }
    ensures worn { result.0 ≡ hows.Worn → is_worn (port_pass result.1) ≡ true }
{
    match source {
        None => (How::OpenFault, port),
        Some(source) => read_through(rt, alloc, cell, pace, port, name, snap, source),
    }
}

/// The ending of a source, by whether its End was made.
fn ending_of(how: How, ended: bool) -> How
    ensures { result ≡ (if ended then how else hows.Worn) }
{
    if ended { how } else { How::Worn }
}

/// The same as `read_source`, with rests.
pub fn read_paced<S: Source, R: Wait>(
    rt: &R,
    alloc: Global,
    cell: &Cell<Queue>,
    pace: Pace,
    port: Port,
    opened: Opened<S>,
    snap: Option<u32>,
) -> (Ended<S>, Pass<Queue>)
    requires port { IsPortOf cell.now port }
    requires fresh { mine (port_pass port) ≡ [] }
    requires name { length opened.name ≤ MAX_NAME_LEN }
    ensures pass { IsPassOf cell.now result.1 }
    ensures numbers { (low result.1 ≡ port_source port) × (high result.1 ≡ port_source port + 1) }
    ensures ran { WasRead (facts_of S.taken S.left S.ends S.faults) snap (port_source port) opened result.0 (mine result.1) }
    ensures worn { (result.0.how ≡ hows.Worn) ↔ (is_worn result.1 ≡ true) }
{
    let Opened { name, source } = opened;
    let mut source = source;
    let (how, port) = read_opened(rt, alloc, cell, pace, port, &name, snap, &mut source);
    let (pass, ended) = port.end(rt, cell, how);
    let how = ending_of(how, ended);
    (Ended { name, source, how }, pass)
}

/// Reads a source to its end, through the port of its number, under which no call was made so far: joins each interface
/// of its bytes, offers each packet, and ends.
///
/// The name and the source come back. `how` is `Worn` exactly where the turns of the cell are spent, and then no End was
/// made.
pub fn read_source<S: Source, R: Wait>(
    rt: &R,
    alloc: Global,
    cell: &Cell<Queue>,
    port: Port,
    opened: Opened<S>,
    snap: Option<u32>,
) -> (Ended<S>, Pass<Queue>)
    requires port { IsPortOf cell.now port }
    requires fresh { mine (port_pass port) ≡ [] }
    requires name { length opened.name ≤ MAX_NAME_LEN }
    ensures pass { IsPassOf cell.now result.1 }
    ensures numbers { (low result.1 ≡ port_source port) × (high result.1 ≡ port_source port + 1) }
    ensures ran { WasRead (facts_of S.taken S.left S.ends S.faults) snap (port_source port) opened result.0 (mine result.1) }
    ensures worn { (result.0.how ≡ hows.Worn) ↔ (is_worn result.1 ≡ true) }
{
    read_paced(rt, alloc, cell, Pace::none(), port, opened, snap)
}

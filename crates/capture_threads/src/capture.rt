//! A capture's threads, before their first turn and behind their last one.
ghost use Rattle.std.specs.Prelude.{◌≡◌, ◌≤◌, ◌+◌, ◌^◌, [], length, All, List, IfOk, IfErr, vec_capacity};
ghost use Rattle.turn_cell.specs.Passes.{IsPassOf, low, high, start, callers, turns, history, is_worn};
ghost use Rattle.cap_base.specs.declared.limits.TheConstants.{MAX_STANDING_PACKETS, MAX_SOURCES, MAX_NAME_LEN};
ghost use Rattle.cap_base.specs.Callers.{own};
ghost use Rattle.packet_queue.specs.Queue.{limits_of, sources_of};
ghost use Rattle.packet_queue.specs.Ends.{mine};
ghost use Rattle.cap_outside.specs.declared.opened.Opened.{Opened as OpenedSource};
ghost use Rattle.source_thread.specs.Sources.{facts_of};
ghost use Rattle.capture_threads.specs.Begun.{IsBegun};
ghost use Rattle.capture_threads.specs.Captures.{IsCaptured};
ghost use Rattle.capture_threads.specs.Places.{ArePlaced, AreRun};
ghost use Rattle.capture_threads.specs.inner.Prepared.{IsPrepared};

use crate::place::Place;
use crate::sources::{gather, make_ports, place_sources, read_each};
use cap_base::{Limits, NoMemory};
use cap_outside::{Opened, Source};
use pacing::UnderWay;
use packet_queue::{Drain, Port, Queue};
use source_thread::Ended;
use std::alloc::Global;
use std::sync::Wait;
use std::thread::Threads;
use turn_cell::{Cell, Front, Pass};

/// How many turns a capture may take.
const MOST_TURNS: u64 = 1 << 56;

/// A capture before its first turn.
#[derive(Drop)]
pub struct Begun<S> {
    /// The cell of the queue, to which the other parts belong.
    pub cell: Cell<Queue>,
    /// A place for each source, in order.
    pub places: Vec<Place<S>>,
    /// Room for the sources that end.
    pub ended: Vec<Ended<S>>,
    /// The writer's end of the queue.
    pub drain: Drain,
}

/// What so many sources need before their first turn.
#[derive(Drop)]
struct Prepared<S> {
    /// The cell of the queue.
    cell: Cell<Queue>,
    /// A port for each source, in order.
    ports: Vec<Port>,
    /// Room for their places.
    places: Vec<Place<S>>,
    /// Room for the sources that end.
    ended: Vec<Ended<S>>,
    /// The writer's end of the queue.
    drain: Drain,
}

/// Takes all memory that so many sources need before their first turn.
fn prepare<S: Source>(alloc: Global, limits: Limits, sources: u8) -> Result<Prepared<S>, NoMemory>
    requires limits { (1 ≤ limits.packets) × (limits.packets ≤ MAX_STANDING_PACKETS) }
    requires sources { (1 ≤ sources) × (sources ≤ MAX_SOURCES) }
    ensures { IfOk result (IsPrepared limits sources) }
{
    let ended = Vec::with_capacity(alloc, usize::from(sources))?;
    let places = Vec::with_capacity(alloc, usize::from(sources))?;
    let queue = Queue::new(alloc, limits, sources)?;
    let (cell, pass) = Cell::new(alloc, queue, u32::from(sources) + 1, MOST_TURNS)?;
    let (ports, rest) = make_ports(alloc, &cell, pass, sources)?;
    Ok(Prepared {
        cell,
        ports,
        places,
        ended,
        drain: Drain::new(rest),
    })
}

/// Takes all memory that a capture needs before its first turn. A source's thread takes its own.
///
/// There are 1 to 64 sources, whose names have at most 4,096 bytes, and 1 to 16,384 packets may stand in the queue. Where
/// memory is wanting, which is free, the sources come back as they were.
pub fn begin<S: Source>(
    alloc: Global,
    limits: Limits,
    opened: Vec<Opened<S>>,
) -> Result<Begun<S>, Vec<Opened<S>>>
    requires limits { (1 ≤ limits.packets) × (limits.packets ≤ MAX_STANDING_PACKETS) }
    requires sources { (1 ≤ length opened.items) × (length opened.items ≤ MAX_SOURCES) }
    requires names { All (λ (o : OpenedSource S). length o.name ≤ MAX_NAME_LEN) opened.items }
    ensures begun { IfOk result (IsBegun limits opened.items) }
    ensures back { IfErr result (λ back. back.items ≡ opened.items) }
{
    let Ok(prepared) = prepare(alloc, limits, opened.len() as u8) else {
        return Err(opened);
    };
    let Prepared {
        cell,
        ports,
        places,
        ended,
        drain,
    } = prepared;
    let places = place_sources(ports, opened, places);
    Ok(Begun {
        cell,
        places,
        ended,
        drain,
    })
}

/// Reads all sources at once, each in a thread of its own, to their ends. Packets are cut to the snap length, where there
/// is one.
///
/// The sources wait for room by the counts of what is under way. These are made of the limits of the queue, and the writer
/// says there what it took.
pub fn read_places<S: Source, R: Threads + Wait + Sync>(
    rt: &R,
    alloc: Global,
    cell: &Cell<Queue>,
    under_way: &UnderWay,
    snap: Option<u32>,
    places: &mut Vec<Place<S>>,
)
    requires placed { (befores : List (OpenedSource S)) × ArePlaced cell.now 0 befores places.old.items }
    ensures run { (befores : List (OpenedSource S)) → ArePlaced cell.now 0 befores places.old.items → AreRun (facts_of S.taken S.left S.ends S.faults) snap cell.now 0 befores places.new.items }
{
    read_each(rt, alloc, cell, under_way, snap, places);
}

/// Puts the passes together and closes the cell: the sources as they ended, in order, and the history.
///
/// The places are those in which the sources were read with this snap length, `ended` is the room for them, and `last` is
/// the pass that the writer left.
pub fn finish<S: Source>(
    cell: Cell<Queue>,
    snap: Option<u32>,
    places: Vec<Place<S>>,
    ended: Vec<Ended<S>>,
    last: Pass<Queue>,
) -> (Vec<Ended<S>>, Front<Queue>)
    requires run { (befores : List (OpenedSource S)) × AreRun (facts_of S.taken S.left S.ends S.faults) snap cell 0 befores places.items × (length befores ≡ sources_of (start cell)) }
    requires last { IsPassOf cell last × (low last ≡ sources_of (start cell)) × (high last ≡ sources_of (start cell) + 1) }
    requires counts { (callers cell ≡ sources_of (start cell) + 1) × (turns cell ≡ 2 ^ 56) }
    requires none_ended { ended.items ≡ [] }
    requires room { sources_of (start cell) ≤ vec_capacity ended }
    ensures captured { (befores : List (OpenedSource S)) → AreRun (facts_of S.taken S.left S.ends S.faults) snap cell 0 befores places.items → IsCaptured (facts_of S.taken S.left S.ends S.faults) snap (limits_of (start cell)) befores result.0.items (is_worn last) result.1 }
    ensures last { own (sources_of (start cell)) (history result.1) ≡ mine last }
{
    let mut places = places;
    let mut ended = ended;
    let pass = gather(&cell, snap, &mut places, &mut ended, last);
    let (_queue, front) = cell.close(pass);
    (ended, front)
}

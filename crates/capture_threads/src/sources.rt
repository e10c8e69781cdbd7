//! All sources at once, each in a thread of its own.
ghost use Rattle.std.specs.Prelude.{◌≡◌, ◌≤◌, ◌<◌, ◌+◌, [], length, IfOk, ℕ, vec_capacity};
ghost use Rattle.std.specs.Thread.{IsSync};
ghost use Rattle.turn_cell.specs.Passes.{IsPassOf, Has, low, high, made, start};
ghost use Rattle.cap_base.specs.declared.limits.TheConstants.{MAX_SOURCES};
ghost use Rattle.cap_base.specs.Callers.{own};
ghost use Rattle.packet_queue.specs.Queue.{sources_of};
ghost use Rattle.source_thread.specs.Sources.{facts_of};
ghost use Rattle.capture_threads.specs.inner.Places.{IsReady, IsOver, AreReady, AreOver, CanGather, Gathers, IsFreshPort, AreFreshPorts, paired};

use crate::place::Place;
use cap_base::NoMemory;
use cap_outside::{Opened, Source};
use pacing::{Pace, UnderWay};
use packet_queue::{Port, Queue};
use source_thread::{Ended, read_paced};
use std::alloc::Global;
use std::mem;
use std::sync::Wait;
use std::thread::{Threads, join_mut};
use turn_cell::{Cell, Pass};

/// The port of the next source: the least number is split off the pass.
fn next_port(
    alloc: Global,
    cell: &Cell<Queue>,
    pass: Pass<Queue>,
    number: u8,
) -> Result<(Port, Pass<Queue>), NoMemory>
    requires pass { IsPassOf cell.now pass }
    requires numbers { (low pass ≡ number) × (number + 1 < high pass) }
    requires fresh { (n : ℕ) → Has pass n → own n (made pass) ≡ [] }
    requires number { (number < sources_of (start cell.now)) × (number < MAX_SOURCES) }
    ensures port { IfOk result (λ r. IsFreshPort cell.now number r.0) }
    ensures pass { IfOk result (λ r. IsPassOf cell.now r.1) }
    ensures numbers { IfOk result (λ r. (low r.1 ≡ number + 1) × (high r.1 ≡ high pass)) }
    ensures fresh { IfOk result (λ r. (n : ℕ) → Has r.1 n → own n (made r.1) ≡ []) }
{
    let (mine, rest) = cell.split(pass, u32::from(number) + 1);
    match Port::new(alloc, mine, number) {
        Ok(port) => Ok((port, rest)),
        Err((e, _)) => Err(e),
    }
}

/// A port for each of so many sources, in order. The pass that comes back has the numbers behind theirs.
pub fn make_ports(
    alloc: Global,
    cell: &Cell<Queue>,
    pass: Pass<Queue>,
    sources: u8,
) -> Result<(Vec<Port>, Pass<Queue>), NoMemory>
    requires pass { IsPassOf cell.now pass }
    requires numbers { (low pass ≡ 0) × (high pass ≡ sources + 1) }
    requires fresh { made pass ≡ [] }
    requires sources { sources_of (start cell.now) ≡ sources }
    requires few { sources ≤ MAX_SOURCES }
    ensures ports { IfOk result (λ r. AreFreshPorts cell.now 0 r.0.items × (length r.0.items ≡ sources)) }
    ensures pass { IfOk result (λ r. IsPassOf cell.now r.1) }
    ensures numbers { IfOk result (λ r. (low r.1 ≡ sources) × (high r.1 ≡ sources + 1)) }
    ensures fresh { IfOk result (λ r. (n : ℕ) → Has r.1 n → own n (made r.1) ≡ []) }
{
    let mut ports = Vec::with_capacity(alloc, usize::from(sources))?;
    let mut pass = pass;
    let mut number = 0;
    'ports: while number < sources {
        let (port, rest) = next_port(alloc, cell, pass, number)?;
        ports.push_reserved(port);
        pass = rest;
        number += 1;
    }
    Ok((ports, pass))
}

/// A place for each source, in order, with its port. They go into `room`, which is empty and has room for them.
pub fn place_sources<S: Source>(
    ports: Vec<Port>,
    opened: Vec<Opened<S>>,
    room: Vec<Place<S>>,
) -> Vec<Place<S>>
    requires ports { length ports.items ≡ length opened.items }
    requires empty { room.items ≡ [] }
    requires room { length opened.items ≤ vec_capacity room }
    ensures { result.items ≡ paired ports.items opened.items }
{
    let mut places = room;
    let mut ports = ports.into_iter();
    let mut waiting = opened.into_iter();
    'places: while let Some(opened) = waiting.next() {
        let Some(port) = ports.next() else {
            unreachable!()
        };
        places.push_reserved(Place::Ready(port, opened));
    }
    places
}

/// Reads the source of a place to its end.
fn read_place<S: Source, R: Wait>(
    rt: &R,
    alloc: Global,
    cell: &Cell<Queue>,
    under_way: &UnderWay,
    snap: Option<u32>,
    place: &mut Place<S>,
)
    requires { IsReady cell.now place.old }
    ensures { IsOver (facts_of S.taken S.left S.ends S.faults) snap cell.now place.old place.new }
{
    let Place::Ready(port, opened) = mem::replace(place, Place::Running) else {
        unreachable!()
    };
    let (ended, pass) = read_paced(rt, alloc, cell, Pace::by(under_way), port, opened, snap);
    *place = Place::Over(ended, pass);
}

/// Reads the sources of all places to their ends.
#[cycle(places)]
pub fn read_each<S: Source, R: Threads + Wait + Sync>(
    rt: &R,
    alloc: Global,
    cell: &Cell<Queue>,
    under_way: &UnderWay,
    snap: Option<u32>,
    places: &mut [Place<S>],
)
    requires { AreReady cell.now places.old }
    ensures { AreOver (facts_of S.taken S.left S.ends S.faults) snap cell.now places.old places.new }
{
    if let Some((first, rest)) = places.split_first_mut() {
        read_first(rt, alloc, cell, under_way, snap, first, rest);
    }
}

/// Reads the source of the first place in a new thread, and those of the others from this one.
#[cycle(places)]
fn read_first<S: Source, R: Threads + Wait + Sync>(
    rt: &R,
    alloc: Global,
    cell: &Cell<Queue>,
    under_way: &UnderWay,
    snap: Option<u32>,
    first: &mut Place<S>,
    rest: &mut [Place<S>],
)
    requires first { IsReady cell.now first.old }
    requires rest { AreReady cell.now rest.old }
    ensures first { IsOver (facts_of S.taken S.left S.ends S.faults) snap cell.now first.old first.new }
    ensures rest { AreOver (facts_of S.taken S.left S.ends S.faults) snap cell.now rest.old rest.new }
{
    join_mut(
        rt,
        &mut ||
            requires { IsReady cell.now first.now }
            ensures { IsOver (facts_of S.taken S.left S.ends S.faults) snap cell.entry.now first.entry.now first.exit.now }
        { read_place(rt, alloc, cell, under_way, snap, first) },
        &mut ||
            requires { IsSync R.row × AreReady cell.now rest.now }
            ensures { AreOver (facts_of S.taken S.left S.ends S.faults) snap cell.entry.now rest.entry.now rest.exit.now }
        { read_each(rt, alloc, cell, under_way, snap, rest) },
    );
}

/// Takes what the threads left out of the places: the sources, in order, into `ended`, which has room for them, and
/// their passes in front of another pass. They were read with this snap length.
pub fn gather<S: Source>(
    cell: &Cell<Queue>,
    snap: Option<u32>,
    places: &mut [Place<S>],
    ended: &mut Vec<Ended<S>>,
    last: Pass<Queue>,
) -> Pass<Queue>
    requires places { CanGather (facts_of S.taken S.left S.ends S.faults) snap cell.now places.old last }
    requires room { length ended.old.items + length places.old ≤ vec_capacity ended.old }
    ensures gathered { Gathers (facts_of S.taken S.left S.ends S.faults) snap cell.now places.old ended.old.items ended.new.items last result }
    ensures capacity { vec_capacity ended.new ≡ vec_capacity ended.old }
{
    let Some((first, rest)) = places.split_first_mut() else {
        return last;
    };
    let Place::Over(source, pass) = mem::replace(first, Place::Running) else {
        unreachable!()
    };
    ended.push_reserved(source);
    let others = gather(cell, snap, rest, ended, last);
    cell.join(pass, others)
}

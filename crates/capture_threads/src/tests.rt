// Captures from sources in memory, beside a writer that counts what it takes.
ghost use Rattle.std.specs.Prelude.{◌≡◌, ◌≤◌, ◌<◌, ◌^◌, length, true, false, List, All, IfOk, None};
ghost use Rattle.std.specs.Thread.{IsSync};
ghost use Rattle.turn_cell.specs.Passes.{is_worn, turns_made};
ghost use Rattle.packet_queue.specs.Ends.{IsDrainOf, drain_pass};
ghost use Rattle.source_thread.specs.Sources.{facts_of};
ghost use Rattle.capture_threads.specs.Places.{ArePlaced, AreRun};
ghost use Rattle.cap_outside.specs.declared.opened.Opened.{Opened as OpenedSource};

use crate::{Begun, Place, begin, finish, read_places};
use cap_base::{Code, How, Item, Limits, Name, NoMemory, Octets, Taken};
use cap_outside::{MemSource, Opened, Source};
use pacing::{Arrivals, UnderWay};
use packet_queue::{Drain, Queue};
use source_thread::Ended;
use std::alloc::Global;
use std::sync::Wait;
use std::test::Fail;
use std::thread::{Threads, join_mut};
use std::time::Duration;
use turn_cell::{Cell, Front};

/// A file header of classic pcap, and a packet record of 4 bytes.
const HEADER: [u8; 24] = [
    0xD4, 0xC3, 0xB2, 0xA1, 2, 0, 4, 0, 0, 0, 0, 0, 0, 0, 0, 0, 0, 0, 4, 0, 1, 0, 0, 0,
];

const RECORD: [u8; 20] = [
    1, 0, 0, 0, 2, 0, 0, 0, 4, 0, 0, 0, 60, 0, 0, 0, 0xDE, 0xAD, 0xBE, 0xEF,
];

// A file header and so many packets of 4 bytes.
fn text(alloc: Global, packets: u16) -> Result<Octets, NoMemory> {
    let mut text = Octets::from_slice(alloc, &HEADER)?;
    'packets: for _i in 0..packets {
        text.append(&RECORD)?;
    }
    Ok(text)
}

// A source of these bytes, whose reads at these places fail.
fn opened(alloc: Global, name: &str, text: Octets, fails: &[u64]) -> Result<Opened<MemSource>, Fail>
    ensures { IfOk result (λ o. length o.name ≤ 4096) }
{
    let source = MemSource::new(text, Vec::new(alloc), fails.to_vec(alloc)?);
    Ok(Opened {
        name: short_name(alloc, name)?,
        source: Some(source),
    })
}

fn short_name(alloc: Global, name: &str) -> Result<Name, NoMemory>
    ensures { IfOk result (λ n. length n ≤ 4096) }
{
    let name = Name::from_text(alloc, name)?;
    if name.len() > 4096 {
        return Err(NoMemory);
    }
    Ok(name)
}

/// What a writer took.
#[derive(Drop)]
struct Counter {
    interfaces: u64,
    packets: u64,
    endings: u64,
    done: bool,
}

// How many bytes the body of a packet that was taken has.
fn body_len(taken: &Taken) -> Option<usize> {
    match taken {
        Taken::Item(Item::Packet(packet)) => Some(packet.body.len()),
        Taken::Item(_) | Taken::Empty | Taken::Done => None,
    }
}

impl Counter {
    fn none() -> Counter {
        Counter {
            interfaces: 0,
            packets: 0,
            endings: 0,
            done: false,
        }
    }

    // Takes note, and answers whether it was the last.
    fn count(&mut self, taken: &Taken) -> bool
        ensures { result ≡ true → self.new.done ≡ true }
    {
        match taken {
            Taken::Item(Item::Iface(_, _)) => self.interfaces = self.interfaces.saturating_add(1),
            Taken::Item(Item::Packet(_)) => self.packets = self.packets.saturating_add(1),
            Taken::Item(Item::Ended(_, _)) => self.endings = self.endings.saturating_add(1),
            Taken::Empty => {}
            Taken::Done => {
                self.done = true;
                return true;
            }
        }
        false
    }

    fn take_all<R: Wait>(
        &mut self,
        rt: &R,
        cell: &Cell<Queue>,
        arrivals: &mut Arrivals,
        drain: &mut Drain,
    )
        requires { IsDrainOf cell.now drain.old }
        ensures drain { IsDrainOf cell.now drain.new }
        ensures done { is_worn (drain_pass drain.new) ≡ false → self.new.done ≡ true }
    {
        'takes: for _ in rt.forever() {
            let seen = cell.passed();
            let Ok(taken) = drain.take(rt, cell, 0) else {
                return;
            };
            if self.count(&taken) {
                return;
            }
            settle_or_rest(rt, cell, seen, arrivals, &taken);
        }
        unreachable!()
    }
}

// Keeps the counts of what is under way, and rests where nothing was due.
fn settle_or_rest<R: Wait>(
    rt: &R,
    cell: &Cell<Queue>,
    seen: u64,
    arrivals: &mut Arrivals,
    taken: &Taken,
) {
    if let Some(bytes) = body_len(taken) {
        arrivals.took(bytes);
    } else if let Taken::Empty = taken {
        arrivals.settle();
        cell.rest(rt, seen, Duration::from_micros(100));
    }
}

// Reads all sources, and takes what they give.
fn read_and_take<S: Source, R: Threads + Wait + Sync>(
    rt: &R,
    alloc: Global,
    cell: &Cell<Queue>,
    under_way: &UnderWay,
    places: &mut Vec<Place<S>>,
    drain: &mut Drain,
    counter: &mut Counter,
)
    requires placed { (befores : List (OpenedSource S)) × ArePlaced cell.now 0 befores places.old.items }
    requires drain { IsDrainOf cell.now drain.old }
    ensures run { (befores : List (OpenedSource S)) → ArePlaced cell.now 0 befores places.old.items → AreRun (facts_of S.taken S.left S.ends S.faults) None cell.now 0 befores places.new.items }
    ensures drain { IsDrainOf cell.now drain.new }
    ensures done { is_worn (drain_pass drain.new) ≡ false → counter.new.done ≡ true }
{
    join_mut(
        rt,
        &mut ||
            requires { IsSync R.row × ((befores : List (OpenedSource S)) × ArePlaced cell.now 0 befores places.now.items) }
            ensures { (befores : List (OpenedSource S)) → ArePlaced cell.entry.now 0 befores places.entry.now.items → AreRun (facts_of S.taken S.left S.ends S.faults) None cell.entry.now 0 befores places.exit.now.items }
        { read_places(rt, alloc, cell, under_way, None, places) },
        &mut ||
            requires { IsDrainOf cell.now drain.now }
            ensures drain { IsDrainOf cell.entry.now drain.exit.now }
            ensures done { is_worn (drain_pass drain.exit.now) ≡ false → counter.exit.now.done ≡ true }
        { counter.take_all(rt, cell, &mut Arrivals::new(under_way), drain) },
    );
}

/// What a capture came to.
#[derive(Drop)]
struct Counted<S> {
    sources: Vec<Ended<S>>,
    front: Front<Queue>,
}

// A capture beside a writer that borrows: what it did is known behind the capture.
fn captured<S: Source, R: Threads + Wait + Sync>(
    rt: &R,
    alloc: Global,
    limits: Limits,
    opened: Vec<Opened<S>>,
    counter: &mut Counter,
) -> Result<Counted<S>, NoMemory>
    requires limits { (1 ≤ limits.packets) × (limits.packets ≤ 16384) }
    requires sources { (1 ≤ length opened.items) × (length opened.items ≤ 64) }
    requires names { All (λ (o : OpenedSource S). length o.name ≤ 4096) opened.items }
    ensures { IfOk result (λ r. turns_made r.front < 2 ^ 56 → counter.new.done ≡ true) }
{
    let under_way = UnderWay::new(alloc, limits);
    let Ok(begun) = begin(alloc, limits, opened) else {
        return Err(NoMemory);
    };
    let Begun {
        cell,
        mut places,
        ended,
        mut drain,
    } = begun;
    read_and_take(
        rt,
        alloc,
        &cell,
        &under_way,
        &mut places,
        &mut drain,
        counter,
    );
    let (sources, front) = finish(cell, None, places, ended, drain.into_pass());
    Ok(Counted { sources, front })
}

const PLENTY: Limits = Limits {
    packets: 16_384,
    bytes: None,
};

fn ended_so(captured: &Counted<MemSource>, hows: &[How]) -> bool {
    if captured.sources.len() != hows.len() {
        return false;
    }
    for (ended, how) in captured.sources.iter().zip(hows.iter()) {
        if ended.how != *how {
            return false;
        }
    }
    true
}

#[test]
fn each_source_ends_by_its_own_cause(rt: HostRuntime) -> Result<(), Fail> {
    let alloc = rt.alloc();
    let mut sources = Vec::new(alloc);
    sources.push(Opened {
        name: short_name(alloc, "a")?,
        source: None,
    })?;
    sources.push(opened(alloc, "b", text(alloc, 1000)?, &[])?)?;
    // The second read fails.
    sources.push(opened(alloc, "c", text(alloc, 3)?, &[1])?)?;
    let mut cut = text(alloc, 2)?;
    cut.append(&[0])?;
    sources.push(opened(alloc, "d", cut, &[])?)?;
    let mut bad = text(alloc, 5)?;
    bad.append(&[0xFF; 16])?;
    sources.push(opened(alloc, "e", bad, &[])?)?;
    let mut counter = Counter::none();
    let captured = captured(&rt, alloc, PLENTY, sources, &mut counter)?;
    let hows: [How; 5] = [
        How::OpenFault,
        How::Clean,
        How::ReadFault,
        How::Cut { at: 64 },
        How::Bad {
            code: Code::Captured,
            at: 124,
        },
    ];
    assert!(rt; ended_so(&captured, &hows));
    assert!(rt; counter.done);
    assert_eq!(rt; counter.interfaces, 4);
    assert_eq!(rt; counter.endings, 5);
    assert_eq!(rt; counter.packets, 1010);
    Ok(())
}

// Limits that hold five packets: sources that didn't wait for room would lose most.
#[test]
fn nothing_is_lost_where_sources_can_wait(rt: HostRuntime) -> Result<(), Fail> {
    let alloc = rt.alloc();
    let mut sources = Vec::new(alloc);
    sources.push(opened(alloc, "a", text(alloc, 700)?, &[])?)?;
    sources.push(opened(alloc, "b", text(alloc, 700)?, &[])?)?;
    sources.push(opened(alloc, "c", text(alloc, 700)?, &[])?)?;
    let mut counter = Counter::none();
    let limits = Limits {
        packets: 5,
        bytes: Some(18),
    };
    let captured = captured(&rt, alloc, limits, sources, &mut counter)?;
    assert!(rt; ended_so(&captured, &[How::Clean, How::Clean, How::Clean]));
    assert!(rt; counter.done);
    assert_eq!(rt; counter.packets, 2100);
    Ok(())
}

// One source read through the queue: what the writer is given of it, and how it ends.
ghost use Rattle.std.specs.Prelude.{◌≡◌, ◌≤◌, []};
ghost use Rattle.packet_queue.specs.Ends.{IsDrainOf, drain_pass, mine};

use crate::read_source;
use cap_base::{Code, How, Item, Limits, MAX_NAME_LEN, Name, NoMemory, Octets, Taken, Why};
use cap_outside::{MemSource, Opened};
use packet_queue::{Drain, Port, Queue};
use std::alloc::Global;
use std::fmt::Write;
use std::process::Abort;
use std::sync::Wait;
use std::test::Fail;
use turn_cell::Cell;

const PLENTY: Limits = Limits {
    packets: 16_384,
    bytes: None,
};

/// A file header of classic pcap with microseconds, snap length 262,144 and link type 1, in either order.
const HEADER: [u8; 24] = [
    0xD4, 0xC3, 0xB2, 0xA1, 2, 0, 4, 0, 0, 0, 0, 0, 0, 0, 0, 0, 0, 0, 4, 0, 1, 0, 0, 0,
];

const BIG_HEADER: [u8; 24] = [
    0xA1, 0xB2, 0xC3, 0xD4, 0, 2, 0, 4, 0, 0, 0, 0, 0, 0, 0, 0, 0, 4, 0, 0, 0, 0, 0, 1,
];

/// A packet record of 1.000002 seconds: 4 bytes of 60.
const RECORD: [u8; 20] = [
    1, 0, 0, 0, 2, 0, 0, 0, 4, 0, 0, 0, 60, 0, 0, 0, 0xDE, 0xAD, 0xBE, 0xEF,
];

const BIG_RECORD: [u8; 20] = [
    0, 0, 0, 1, 0, 0, 0, 2, 0, 0, 0, 4, 0, 0, 0, 60, 0xDE, 0xAD, 0xBE, 0xEF,
];

/// The first one without its last byte.
const CUT_RECORD: [u8; 19] = [
    1, 0, 0, 0, 2, 0, 0, 0, 4, 0, 0, 0, 60, 0, 0, 0, 0xDE, 0xAD, 0xBE,
];

/// The head of a packet record of 262,145 captured bytes.
const LONG_RECORD: [u8; 16] = [0, 0, 0, 0, 0, 0, 0, 0, 1, 0, 4, 0, 1, 0, 4, 0];

/// A packet record of 6 bytes at time 0.
const RECORD_OF_SIX: [u8; 22] = [
    0, 0, 0, 0, 0, 0, 0, 0, 6, 0, 0, 0, 6, 0, 0, 0, 1, 2, 3, 4, 5, 6,
];

const SECTION: [u8; 28] = [
    0x0A, 0x0D, 0x0D, 0x0A, 28, 0, 0, 0, 0x4D, 0x3C, 0x2B, 0x1A, 1, 0, 0, 0, 0xFF, 0xFF, 0xFF,
    0xFF, 0xFF, 0xFF, 0xFF, 0xFF, 28, 0, 0, 0,
];

const BIG_SECTION: [u8; 28] = [
    0x0A, 0x0D, 0x0D, 0x0A, 0, 0, 0, 28, 0x1A, 0x2B, 0x3C, 0x4D, 0, 1, 0, 0, 0xFF, 0xFF, 0xFF,
    0xFF, 0xFF, 0xFF, 0xFF, 0xFF, 0, 0, 0, 28,
];

/// Link type 1, snap length 262,144.
const INTERFACE: [u8; 20] = [1, 0, 0, 0, 20, 0, 0, 0, 1, 0, 0, 0, 0, 0, 4, 0, 20, 0, 0, 0];

/// Link type 101, snap length 262,144.
const BIG_INTERFACE: [u8; 20] = [
    0, 0, 0, 1, 0, 0, 0, 20, 0, 101, 0, 0, 0, 4, 0, 0, 0, 0, 0, 20,
];

/// Interface 0, time 1,000,002, 4 bytes of 60.
const PACKET: [u8; 36] = [
    6, 0, 0, 0, 36, 0, 0, 0, 0, 0, 0, 0, 0, 0, 0, 0, 0x42, 0x42, 0x0F, 0, 4, 0, 0, 0, 60, 0, 0, 0,
    0xDE, 0xAD, 0xBE, 0xEF, 36, 0, 0, 0,
];

/// The same of interface 1.
const OTHER_PACKET: [u8; 36] = [
    6, 0, 0, 0, 36, 0, 0, 0, 1, 0, 0, 0, 0, 0, 0, 0, 0x42, 0x42, 0x0F, 0, 4, 0, 0, 0, 60, 0, 0, 0,
    0xDE, 0xAD, 0xBE, 0xEF, 36, 0, 0, 0,
];

const BIG_PACKET: [u8; 36] = [
    0, 0, 0, 6, 0, 0, 0, 36, 0, 0, 0, 0, 0, 0, 0, 0, 0, 0x0F, 0x42, 0x42, 0, 0, 0, 4, 0, 0, 0, 60,
    0xDE, 0xAD, 0xBE, 0xEF, 0, 0, 0, 36,
];

/// As dumpcap writes them: a section header with the hardware, the system and the application ..
const LONG_SECTION: [u8; 64] = [
    0x0A, 0x0D, 0x0D, 0x0A, 64, 0, 0, 0, 0x4D, 0x3C, 0x2B, 0x1A, 1, 0, 0, 0, 0xFF, 0xFF, 0xFF,
    0xFF, 0xFF, 0xFF, 0xFF, 0xFF, 2, 0, 3, 0, 0x78, 0x38, 0x36, 0, 3, 0, 5, 0, 0x4C, 0x69, 0x6E,
    0x75, 0x78, 0, 0, 0, 4, 0, 7, 0, 0x44, 0x75, 0x6D, 0x70, 0x63, 0x61, 0x70, 0, 0, 0, 0, 0, 64,
    0, 0, 0,
];

/// .. an interface with the name eth0, resolution 9 and the system ..
const LONG_INTERFACE: [u8; 52] = [
    1, 0, 0, 0, 52, 0, 0, 0, 1, 0, 0, 0, 0, 0, 4, 0, 2, 0, 4, 0, 0x65, 0x74, 0x68, 0x30, 9, 0, 1,
    0, 9, 0, 0, 0, 12, 0, 5, 0, 0x4C, 0x69, 0x6E, 0x75, 0x78, 0, 0, 0, 0, 0, 0, 0, 52, 0, 0, 0,
];

/// .. and statistics: 1 packet received, 0 dropped, 1 delivered.
const STATISTICS: [u8; 64] = [
    5, 0, 0, 0, 64, 0, 0, 0, 0, 0, 0, 0, 0, 0, 0, 0, 0, 0, 0, 0, 4, 0, 8, 0, 1, 0, 0, 0, 0, 0, 0,
    0, 5, 0, 8, 0, 0, 0, 0, 0, 0, 0, 0, 0, 8, 0, 8, 0, 1, 0, 0, 0, 0, 0, 0, 0, 0, 0, 0, 0, 64, 0,
    0, 0,
];

/// A block of type 7 whose length is no multiple of 4, and one whose second length differs.
const ODD_LENGTH: [u8; 12] = [7, 0, 0, 0, 14, 0, 0, 0, 0, 0, 0, 0];

const OTHER_LENGTHS: [u8; 16] = [7, 0, 0, 0, 16, 0, 0, 0, 0, 0, 0, 0, 12, 0, 0, 0];

/// A source: its bytes, the most bytes of its first reads, and which reads fail.
#[derive(Clone, Copy)]
struct Case<'a> {
    parts: &'a [&'a [u8]],
    cuts: &'a [u64],
    fails: &'a [u64],
}

impl<'a> Case<'a> {
    // Reads give what they are asked for.
    fn whole(parts: &'a [&'a [u8]]) -> Case<'a> {
        Case {
            parts,
            cuts: &[],
            fails: &[],
        }
    }

    fn open(&self, alloc: Global) -> Result<MemSource, NoMemory> {
        let mut text = Octets::new(alloc);
        for part in self.parts {
            text.append(part)?;
        }
        Ok(MemSource::new(text, self.cuts.to_vec(alloc)?, self.fails.to_vec(alloc)?))
    }
}

// Adds a line for what the writer was given; false at the end.
fn describe(taken: &Taken, lines: &mut String) -> Result<bool, Fail> {
    match taken {
        Taken::Item(Item::Iface(number, i)) => {
            write!(
                lines,
                "interface {number} {} {} {} ",
                i.link, i.snap, i.resol
            )?;
            for byte in i.name.as_slice() {
                write!(lines, "{byte:02x}")?;
            }
            writeln!(lines)?;
        }
        Taken::Item(Item::Packet(p)) => {
            writeln!(
                lines,
                "packet {} {} {} {}",
                p.iface,
                p.time,
                p.orig,
                p.body.len()
            )?;
        }
        Taken::Item(Item::Ended(source, how)) => writeln!(lines, "end {source} {how:?}")?,
        Taken::Empty | Taken::Done => return Ok(false),
    }
    Ok(true)
}

// Stops the capture before anything was taken.
fn stop_at_once<R: Wait>(rt: &R, cell: &Cell<Queue>, drain: &mut Drain) -> Result<(), Fail>
    requires drain { IsDrainOf cell.now drain.old }
    requires fresh { mine (drain_pass drain.old) ≡ [] }
    ensures drain { IsDrainOf cell.now drain.new }
{
    let Ok(()) = drain.stop(rt, cell, Why::Packets, 0) else {
        return Err("no turn".into());
    };
    Ok(())
}

// Takes all that is due, a line each.
fn take_all<R: Wait>(
    rt: &R,
    cell: &Cell<Queue>,
    drain: &mut Drain,
    lines: &mut String,
) -> Result<(), Fail>
    requires { IsDrainOf cell.now drain.old }
{
    'takes: for _ in 0..100u8 {
        let Ok(taken) = drain.take(rt, cell, 0) else {
            writeln!(lines, "no turn")?;
            return Ok(());
        };
        if !describe(&taken, lines)? {
            return Ok(());
        }
    }
    Ok(())
}

/// A queue of one source, with so many turns, and a stop before the source begins if it is asked for.
#[derive(Clone, Copy)]
struct Setting {
    limits: Limits,
    turns: u64,
    stopped: bool,
    snap: Option<u32>,
}

const USUAL: Setting = Setting {
    limits: PLENTY,
    turns: 1_000,
    stopped: false,
    snap: None,
};

// Reads a source to its end, and then takes what it gave: how it ended, and what was taken, a line each.
fn run<R: Wait>(
    rt: &R,
    alloc: Global,
    setting: &Setting,
    source: Option<MemSource>,
) -> Result<(How, String), Fail>
    requires limits { (1 ≤ setting.now.limits.packets) × (setting.now.limits.packets ≤ 16384) }
    requires turns { setting.now.turns ≤ 1000 }
{
    let queue = Queue::new(alloc, setting.limits, 1)?;
    let (cell, pass) = Cell::new(alloc, queue, 2, setting.turns)?;
    let (mine, rest) = cell.split(pass, 1);
    let port = match Port::new(alloc, mine, 0) {
        Ok(port) => port,
        Err((e, _)) => return Err(e.into()),
    };
    let mut drain = Drain::new(rest);
    if setting.stopped {
        stop_at_once(rt, &cell, &mut drain)?;
    }
    let name = Name::from_text(alloc, "b")?;
    if name.len() > MAX_NAME_LEN {
        return Err(NoMemory.into());
    }
    let opened = Opened { name, source };
    let (ended, _pass) = read_source(rt, alloc, &cell, port, opened, setting.snap);
    let mut lines = String::new(alloc);
    take_all(rt, &cell, &mut drain, &mut lines)?;
    Ok((ended.how, lines))
}

// What the writer is given of a source, and behind it the ending.
fn gives<R: Wait + Abort>(
    rt: &R,
    alloc: Global,
    setting: &Setting,
    case: Case,
    want: &str,
) -> Result<(), Fail>
    requires limits { (1 ≤ setting.now.limits.packets) × (setting.now.limits.packets ≤ 16384) }
    requires turns { setting.now.turns ≤ 1000 }
{
    let (how, lines) = run(rt, alloc, setting, Some(case.open(alloc)?))?;
    let mut seen = lines;
    write!(seen, "{how:?}")?;
    assert_eq!(rt; seen.as_str(), want);
    Ok(())
}

#[test]
fn a_source_of_either_format_ends_as_its_bytes_do(rt: HostRuntime) -> Result<(), Fail> {
    let alloc = rt.alloc();
    let one = "interface 0 1 262144 6 62\npacket 0 1000002 60 4\nend 0 Clean\nClean";
    gives(&rt, alloc, &USUAL, Case::whole(&[&HEADER, &RECORD]), one)?;
    let bytes = Case {
        parts: &[&BIG_HEADER, &BIG_RECORD],
        cuts: &[1; 44],
        fails: &[],
    };
    gives(&rt, alloc, &USUAL, bytes, one)?;
    let nothing = "end 0 Cut { at: 0 }\nCut { at: 0 }";
    gives(&rt, alloc, &USUAL, Case::whole(&[]), nothing)?;
    gives(
        &rt,
        alloc,
        &USUAL,
        Case::whole(&[&HEADER, &RECORD, &CUT_RECORD]),
        "interface 0 1 262144 6 62\npacket 0 1000002 60 4\nend 0 Cut { at: 44 }\nCut { at: 44 }",
    )?;
    gives(
        &rt,
        alloc,
        &USUAL,
        Case::whole(&[&HEADER, &LONG_RECORD]),
        "interface 0 1 262144 6 62\nend 0 Bad { code: Captured, at: 24 }\nBad { code: Captured, at: 24 }",
    )?;
    gives(
        &rt,
        alloc,
        &USUAL,
        Case::whole(&[&LONG_SECTION, &LONG_INTERFACE, &PACKET, &STATISTICS]),
        "interface 0 1 262144 9 65746830\npacket 0 1000002 60 4\nend 0 Clean\nClean",
    )
}

#[test]
fn interfaces_are_numbered_over_all_sections(rt: HostRuntime) -> Result<(), Fail> {
    let alloc = rt.alloc();
    gives(
        &rt,
        alloc,
        &USUAL,
        Case::whole(&[
            &SECTION,
            &INTERFACE,
            &PACKET,
            &BIG_SECTION,
            &BIG_INTERFACE,
            &BIG_PACKET,
        ]),
        "interface 0 1 262144 6 62\npacket 0 1000002 60 4\ninterface 1 101 262144 6 62\npacket 1 1000002 60 4\nend 0 Clean\nClean",
    )?;
    let length = "end 0 Bad { code: Length, at: 28 }\nBad { code: Length, at: 28 }";
    gives(
        &rt,
        alloc,
        &USUAL,
        Case::whole(&[&SECTION, &ODD_LENGTH]),
        length,
    )?;
    let trailer = "end 0 Bad { code: Trailer, at: 28 }\nBad { code: Trailer, at: 28 }";
    gives(
        &rt,
        alloc,
        &USUAL,
        Case::whole(&[&SECTION, &OTHER_LENGTHS]),
        trailer,
    )?;
    gives(
        &rt,
        alloc,
        &USUAL,
        Case::whole(&[&SECTION, &INTERFACE, &PACKET, &OTHER_PACKET]),
        "interface 0 1 262144 6 62\npacket 0 1000002 60 4\nend 0 Bad { code: Interface, at: 84 }\nBad { code: Interface, at: 84 }",
    )?;
    let many: [&[u8]; 258] = [&INTERFACE; 258];
    let mut parts = many;
    parts[0] = &SECTION;
    let (how, _lines) = run(&rt, alloc, &USUAL, Some(Case::whole(&parts).open(alloc)?))?;
    assert!(rt; how == How::TooMany);
    Ok(())
}

#[test]
fn a_source_ends_by_its_first_cause(rt: HostRuntime) -> Result<(), Fail> {
    let alloc = rt.alloc();
    let (how, lines) = run(&rt, alloc, &USUAL, None)?;
    assert!(rt; how == How::OpenFault);
    assert_eq!(rt; lines.as_str(), "end 0 OpenFault\n");
    // The second read fails, whatever it would give.
    let failing = Case {
        parts: &[&HEADER, &RECORD, &RECORD],
        cuts: &[44],
        fails: &[1],
    };
    let fault = "interface 0 1 262144 6 62\npacket 0 1000002 60 4\nend 0 ReadFault\nReadFault";
    gives(&rt, alloc, &USUAL, failing, fault)?;
    // Behind a stop the kept bytes are read, and nothing more.
    let stopped = Setting {
        stopped: true,
        ..USUAL
    };
    let halves = Case {
        parts: &[&HEADER, &RECORD, &LONG_RECORD],
        cuts: &[44],
        fails: &[],
    };
    let first = "interface 0 1 262144 6 62\nend 0 Stopped\nStopped";
    gives(&rt, alloc, &stopped, halves, first)?;
    gives(
        &rt,
        alloc,
        &stopped,
        Case::whole(&[&HEADER, &RECORD, &LONG_RECORD]),
        "interface 0 1 262144 6 62\nend 0 Bad { code: Captured, at: 44 }\nBad { code: Captured, at: 44 }",
    )?;
    let cut = Case::whole(&[&HEADER, &RECORD, &CUT_RECORD]);
    gives(&rt, alloc, &stopped, cut, first)
}

#[test]
fn the_queue_weighs_bodies_as_they_are_cut(rt: HostRuntime) -> Result<(), Fail> {
    let setting = Setting {
        limits: Limits {
            packets: 16_384,
            bytes: Some(10),
        },
        snap: Some(4),
        ..USUAL
    };
    gives(
        &rt,
        rt.alloc(),
        &setting,
        Case::whole(&[
            &HEADER,
            &RECORD_OF_SIX,
            &RECORD_OF_SIX,
            &RECORD_OF_SIX,
            &RECORD_OF_SIX,
        ]),
        "interface 0 1 4 6 62\npacket 0 0 6 4\npacket 0 0 6 4\npacket 0 0 6 4\nend 0 Clean\nClean",
    )
}

// How a source of 128 packets ends in a cell of so many turns, and whether a turn is left then.
fn ends_in<R: Wait>(rt: &R, alloc: Global, turns: u64) -> Result<(How, bool), Fail>
    requires { turns ≤ 1000 }
{
    let mut parts: [&[u8]; 129] = [&RECORD; 129];
    parts[0] = &HEADER;
    let setting = Setting { turns, ..USUAL };
    let (how, lines) = run(rt, alloc, &setting, Some(Case::whole(&parts).open(alloc)?))?;
    Ok((how, lines.as_str() != "no turn\n"))
}

#[test]
fn packets_of_one_piece_take_few_turns(rt: HostRuntime) -> Result<(), Fail> {
    // A join, two batches and an end.
    assert!(rt; matches!(ends_in(&rt, rt.alloc(), 4)?, (How::Clean, false)));
    assert!(rt; matches!(ends_in(&rt, rt.alloc(), 5)?, (How::Clean, true)));
    assert!(rt; matches!(ends_in(&rt, rt.alloc(), 3)?, (How::Worn, false)));
    Ok(())
}

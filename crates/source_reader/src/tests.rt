use crate::Reader;
use cap_base::{How, Name, Octets, Spares, Step};
use std::alloc::Global;
use std::fmt::Write;
use std::process::Abort;
use std::test::Fail;

/// A little-endian file header of classic pcap with microseconds: snap length 262,144, link type 1.
const CLASSIC_HEADER: [u8; 24] = [
    0xD4, 0xC3, 0xB2, 0xA1, 2, 0, 4, 0, 0, 0, 0, 0, 0, 0, 0, 0, 0, 0, 4, 0, 1, 0, 0, 0,
];

/// A packet record of 1.000002 seconds: 4 bytes of 60.
const RECORD: [u8; 20] = [
    1, 0, 0, 0, 2, 0, 0, 0, 4, 0, 0, 0, 60, 0, 0, 0, 0xDE, 0xAD, 0xBE, 0xEF,
];

/// A packet record of 6 bytes at time 0.
const RECORD_OF_SIX: [u8; 22] = [
    0, 0, 0, 0, 0, 0, 0, 0, 6, 0, 0, 0, 6, 0, 0, 0, 1, 2, 3, 4, 5, 6,
];

const SECTION: [u8; 28] = [
    0x0A, 0x0D, 0x0D, 0x0A, 28, 0, 0, 0, 0x4D, 0x3C, 0x2B, 0x1A, 1, 0, 0, 0, 0xFF, 0xFF, 0xFF,
    0xFF, 0xFF, 0xFF, 0xFF, 0xFF, 28, 0, 0, 0,
];

const BIG_SECTION: [u8; 28] = [
    0x0A, 0x0D, 0x0D, 0x0A, 0, 0, 0, 28, 0x1A, 0x2B, 0x3C, 0x4D, 0, 1, 0, 0, 0xFF, 0xFF, 0xFF,
    0xFF, 0xFF, 0xFF, 0xFF, 0xFF, 0, 0, 0, 28,
];

/// Link type 1, snap length 262,144.
const INTERFACE: [u8; 20] = [1, 0, 0, 0, 20, 0, 0, 0, 1, 0, 0, 0, 0, 0, 4, 0, 20, 0, 0, 0];

/// Link type 101, snap length 0.
const OTHER_INTERFACE: [u8; 20] = [
    1, 0, 0, 0, 20, 0, 0, 0, 101, 0, 0, 0, 0, 0, 0, 0, 20, 0, 0, 0,
];

/// Link type 101, snap length 262,144.
const BIG_INTERFACE: [u8; 20] = [
    0, 0, 0, 1, 0, 0, 0, 20, 0, 101, 0, 0, 0, 4, 0, 0, 0, 0, 0, 20,
];

/// Link type 1, snap length 262,144, name a, resolution 6, and the mark that ends the options.
const DESCRIPTION: [u8; 40] = [
    1, 0, 0, 0, 40, 0, 0, 0, 1, 0, 0, 0, 0, 0, 4, 0, 2, 0, 1, 0, 0x61, 0, 0, 0, 9, 0, 1, 0, 6, 0,
    0, 0, 0, 0, 0, 0, 40, 0, 0, 0,
];

/// An interface with the name eth0, and no mark behind its options.
const UNMARKED_INTERFACE: [u8; 28] = [
    1, 0, 0, 0, 28, 0, 0, 0, 1, 0, 0, 0, 0, 0, 4, 0, 2, 0, 4, 0, 0x65, 0x74, 0x68, 0x30, 28, 0, 0,
    0,
];

/// An interface whose options end before what would be a name that runs over the end.
const MARKED_INTERFACE: [u8; 28] = [
    1, 0, 0, 0, 28, 0, 0, 0, 1, 0, 0, 0, 0, 0, 4, 0, 0, 0, 0, 0, 2, 0, 4, 0, 28, 0, 0, 0,
];

/// An interface with a name that runs over the end.
const LONG_NAMED_INTERFACE: [u8; 28] = [
    1, 0, 0, 0, 28, 0, 0, 0, 1, 0, 0, 0, 0, 0, 4, 0, 2, 0, 8, 0, 0x65, 0x74, 0x68, 0x30, 28, 0, 0,
    0,
];

/// Interface 0, time 1,000,002, 4 bytes of 60.
const PACKET: [u8; 36] = [
    6, 0, 0, 0, 36, 0, 0, 0, 0, 0, 0, 0, 0, 0, 0, 0, 0x42, 0x42, 0x0F, 0, 4, 0, 0, 0, 60, 0, 0, 0,
    0xDE, 0xAD, 0xBE, 0xEF, 36, 0, 0, 0,
];

/// The same of interface 1.
const OTHER_PACKET: [u8; 36] = [
    6, 0, 0, 0, 36, 0, 0, 0, 1, 0, 0, 0, 0, 0, 0, 0, 0x42, 0x42, 0x0F, 0, 4, 0, 0, 0, 60, 0, 0, 0,
    0xDE, 0xAD, 0xBE, 0xEF, 36, 0, 0, 0,
];

/// The same of interface 65,536.
const FAR_PACKET: [u8; 36] = [
    6, 0, 0, 0, 36, 0, 0, 0, 0, 0, 1, 0, 0, 0, 0, 0, 0x42, 0x42, 0x0F, 0, 4, 0, 0, 0, 60, 0, 0, 0,
    0xDE, 0xAD, 0xBE, 0xEF, 36, 0, 0, 0,
];

/// Interface 0, time 0, 6 bytes.
const PACKET_OF_SIX: [u8; 40] = [
    6, 0, 0, 0, 40, 0, 0, 0, 0, 0, 0, 0, 0, 0, 0, 0, 0, 0, 0, 0, 6, 0, 0, 0, 6, 0, 0, 0, 1, 2, 3,
    4, 5, 6, 0, 0, 40, 0, 0, 0,
];

const BIG_PACKET: [u8; 36] = [
    0, 0, 0, 6, 0, 0, 0, 36, 0, 0, 0, 0, 0, 0, 0, 0, 0, 0x0F, 0x42, 0x42, 0, 0, 0, 4, 0, 0, 0, 60,
    0xDE, 0xAD, 0xBE, 0xEF, 0, 0, 0, 36,
];

/// A simple packet of 5 bytes, and three bytes of padding.
const SIMPLE_PACKET: [u8; 24] = [
    3, 0, 0, 0, 24, 0, 0, 0, 5, 0, 0, 0, 1, 2, 3, 4, 5, 0, 0, 0, 24, 0, 0, 0,
];

/// As dumpcap writes them: a section header with the hardware, the system and the application ..
const LONG_SECTION: [u8; 64] = [
    0x0A, 0x0D, 0x0D, 0x0A, 64, 0, 0, 0, 0x4D, 0x3C, 0x2B, 0x1A, 1, 0, 0, 0, 0xFF, 0xFF, 0xFF,
    0xFF, 0xFF, 0xFF, 0xFF, 0xFF, 2, 0, 3, 0, 0x78, 0x38, 0x36, 0, 3, 0, 5, 0, 0x4C, 0x69, 0x6E,
    0x75, 0x78, 0, 0, 0, 4, 0, 7, 0, 0x44, 0x75, 0x6D, 0x70, 0x63, 0x61, 0x70, 0, 0, 0, 0, 0, 64,
    0, 0, 0,
];

/// .. an interface with the name eth0, resolution 9 and the system ..
const LONG_INTERFACE: [u8; 52] = [
    1, 0, 0, 0, 52, 0, 0, 0, 1, 0, 0, 0, 0, 0, 4, 0, 2, 0, 4, 0, 0x65, 0x74, 0x68, 0x30, 9, 0, 1,
    0, 9, 0, 0, 0, 12, 0, 5, 0, 0x4C, 0x69, 0x6E, 0x75, 0x78, 0, 0, 0, 0, 0, 0, 0, 52, 0, 0, 0,
];

/// .. and statistics: 1 packet received, 0 dropped, 1 delivered.
const STATISTICS: [u8; 64] = [
    5, 0, 0, 0, 64, 0, 0, 0, 0, 0, 0, 0, 0, 0, 0, 0, 0, 0, 0, 0, 4, 0, 8, 0, 1, 0, 0, 0, 0, 0, 0,
    0, 5, 0, 8, 0, 0, 0, 0, 0, 0, 0, 0, 0, 8, 0, 8, 0, 1, 0, 0, 0, 0, 0, 0, 0, 0, 0, 0, 0, 64, 0,
    0, 0,
];

/// A block of type 7 whose length is no multiple of 4, and one whose second length differs.
const ODD_LENGTH: [u8; 12] = [7, 0, 0, 0, 14, 0, 0, 0, 0, 0, 0, 0];

const OTHER_LENGTHS: [u8; 16] = [7, 0, 0, 0, 16, 0, 0, 0, 0, 0, 0, 0, 12, 0, 0, 0];

/// The first bytes of a section header, and of a packet record.
const CUT_SECTION: [u8; 3] = [0x0A, 0x0D, 0x0D];

const CUT_RECORD: [u8; 19] = [
    1, 0, 0, 0, 2, 0, 0, 0, 4, 0, 0, 0, 60, 0, 0, 0, 0xDE, 0xAD, 0xBE,
];

fn joined(alloc: Global, parts: &[&[u8]]) -> Result<Vec<u8>, Fail> {
    let mut text = Vec::new(alloc);
    for part in parts {
        text.extend_from_slice(part)?;
    }
    Ok(text)
}

/// Adds bytes as text.
fn write_bytes(bytes: &[u8], lines: &mut String) -> Result<(), Fail> {
    for byte in bytes {
        write!(lines, "{byte:02x}")?;
    }
    Ok(())
}

/// Adds a line for an event.
fn describe(step: &Step, lines: &mut String) -> Result<(), Fail> {
    match step {
        Step::Iface(i) => {
            write!(lines, "interface {} {} {} ", i.link, i.snap, i.resol)?;
            write_bytes(i.name.as_slice(), lines)?;
            for note in i.notes.as_slice() {
                write!(lines, " {}:", note.code)?;
                write_bytes(note.body.as_slice(), lines)?;
            }
            writeln!(lines)?;
        }
        Step::Packet(p) => {
            write!(lines, "packet {} {} {} ", p.iface, p.time, p.orig)?;
            write_bytes(p.body.as_slice(), lines)?;
            writeln!(lines)?;
        }
        Step::More | Step::Bad { .. } => {}
    }
    Ok(())
}

/// Adds a line for each event of the kept bytes. The ending, if nothing comes.
fn drain(reader: &mut Reader, lines: &mut String) -> Result<How, Fail> {
    for _ in 0..100u8 {
        match reader.next()? {
            Step::More | Step::Bad { .. } => return Ok(reader.finish()),
            step => describe(&step, lines)?,
        }
    }
    Err("more than a hundred events".into())
}

fn feed(reader: &mut Reader, piece: &[u8]) -> Result<(), Fail> {
    if reader.fed() > 100_000_000 || piece.len() > 100_000_000 {
        return Err("a text of more than a hundred million bytes".into());
    }
    reader.feed(piece)?;
    Ok(())
}

/// The events and the ending of a text that is fed in pieces of a length, a line each.
fn read(alloc: Global, snap: Option<u32>, text: &[u8], len: usize) -> Result<String, Fail> {
    let mut reader = Reader::new(alloc, Name::from_text(alloc, "a")?, snap)?;
    let mut lines = String::new(alloc);
    let mut how = drain(&mut reader, &mut lines)?;
    for piece in text.chunks(len.max(1)) {
        feed(&mut reader, piece)?;
        how = drain(&mut reader, &mut lines)?;
    }
    write!(lines, "{how:?}")?;
    Ok(lines)
}

/// These events and this ending are read, in pieces of any length.
fn reads(
    rt: &impl Abort,
    alloc: Global,
    snap: Option<u32>,
    parts: &[&[u8]],
    want: &str,
) -> Result<(), Fail> {
    let text = joined(alloc, parts)?;
    for len in [1, 3, 7, 1000] {
        let seen = read(alloc, snap, text.as_slice(), len)?;
        assert_eq!(rt; seen.as_str(), want, "in pieces of {len}");
    }
    Ok(())
}

/// A block of type 7 with a total length at both ends, of so many bytes.
fn unknown_block(alloc: Global, total: u32, len: usize) -> Result<Vec<u8>, Fail> {
    let mut block = Vec::new(alloc);
    block.extend_from_slice(&7u32.to_le_bytes())?;
    block.extend_from_slice(&total.to_le_bytes())?;
    let body = vec![in alloc; 0u8; len.saturating_sub(12)]?;
    block.extend_from_slice(body.as_slice())?;
    block.extend_from_slice(&total.to_le_bytes())?;
    Ok(block)
}

#[test]
fn the_first_four_bytes_choose_the_format(rt: HostRuntime) -> Result<(), Fail> {
    let alloc = rt.alloc();
    let events = "interface 1 262144 6 61\npacket 0 1000002 60 deadbeef\nClean";
    reads(&rt, alloc, None, &[&CLASSIC_HEADER, &RECORD], events)?;
    reads(&rt, alloc, None, &[&SECTION, &INTERFACE, &PACKET], events)?;
    let cut = "interface 1 262144 6 61\nCut { at: 24 }";
    reads(&rt, alloc, None, &[&CLASSIC_HEADER, &CUT_RECORD], cut)?;
    reads(&rt, alloc, None, &[&CUT_SECTION], "Cut { at: 0 }")?;
    reads(&rt, alloc, None, &[], "Cut { at: 0 }")?;
    reads(&rt, alloc, None, &[&RECORD], "Bad { code: Magic, at: 0 }")
}

#[test]
fn sections_are_read_in_their_order(rt: HostRuntime) -> Result<(), Fail> {
    let alloc = rt.alloc();
    reads(
        &rt,
        alloc,
        None,
        &[
            &SECTION,
            &INTERFACE,
            &PACKET,
            &BIG_SECTION,
            &BIG_INTERFACE,
            &BIG_PACKET,
        ],
        "interface 1 262144 6 61\npacket 0 1000002 60 deadbeef\ninterface 101 262144 6 61\npacket 1 1000002 60 deadbeef\nClean",
    )?;
    reads(
        &rt,
        alloc,
        None,
        &[&LONG_SECTION, &LONG_INTERFACE, &PACKET, &STATISTICS],
        "interface 1 262144 9 65746830 12:4c696e7578\npacket 0 1000002 60 deadbeef\nClean",
    )?;
    let simple = "interface 101 0 6 61\npacket 0 0 5 0102030405\nClean";
    reads(
        &rt,
        alloc,
        None,
        &[&SECTION, &OTHER_INTERFACE, &SIMPLE_PACKET],
        simple,
    )
}

#[test]
fn a_description_that_is_repeated_keeps_its_interface(rt: HostRuntime) -> Result<(), Fail> {
    let alloc = rt.alloc();
    let once = joined(alloc, &[&SECTION, &INTERFACE, &PACKET])?;
    reads(
        &rt,
        alloc,
        None,
        &[once.as_slice(), once.as_slice()],
        "interface 1 262144 6 61\npacket 0 1000002 60 deadbeef\npacket 0 1000002 60 deadbeef\nClean",
    )?;
    let one_way = joined(
        alloc,
        &[&SECTION, &INTERFACE, &OTHER_INTERFACE, &OTHER_PACKET],
    )?;
    let other_way = joined(
        alloc,
        &[&SECTION, &OTHER_INTERFACE, &INTERFACE, &OTHER_PACKET],
    )?;
    reads(
        &rt,
        alloc,
        None,
        &[one_way.as_slice(), other_way.as_slice(), one_way.as_slice()],
        "interface 1 262144 6 61\ninterface 101 0 6 61\npacket 1 1000002 60 deadbeef\ninterface 101 0 6 61\ninterface 1 262144 6 61\npacket 3 1000002 60 deadbeef\npacket 1 1000002 60 deadbeef\nClean",
    )
}

#[test]
fn a_snap_length_cuts_interfaces_and_bodies(rt: HostRuntime) -> Result<(), Fail> {
    let alloc = rt.alloc();
    let four =
        "interface 1 4 6 61\npacket 0 0 6 01020304\npacket 0 0 6 01020304\npacket 0 0 6 01020304\npacket 0 0 6 01020304\nClean";
    let records = joined(
        alloc,
        &[
            &RECORD_OF_SIX,
            &RECORD_OF_SIX,
            &RECORD_OF_SIX,
            &RECORD_OF_SIX,
        ],
    )?;
    reads(
        &rt,
        alloc,
        Some(4),
        &[&CLASSIC_HEADER, records.as_slice()],
        four,
    )?;
    let packets = joined(
        alloc,
        &[
            &PACKET_OF_SIX,
            &PACKET_OF_SIX,
            &PACKET_OF_SIX,
            &PACKET_OF_SIX,
        ],
    )?;
    reads(
        &rt,
        alloc,
        Some(4),
        &[&SECTION, &INTERFACE, packets.as_slice()],
        four,
    )?;
    let unlimited = "interface 101 262144 6 61\npacket 0 1000002 60 deadbeef\nClean";
    reads(
        &rt,
        alloc,
        Some(262_144),
        &[&SECTION, &OTHER_INTERFACE, &PACKET],
        unlimited,
    )
}

#[test]
fn each_defect_is_named_with_its_place(rt: HostRuntime) -> Result<(), Fail> {
    let alloc = rt.alloc();
    let length = "Bad { code: Length, at: 28 }";
    reads(&rt, alloc, None, &[&SECTION, &ODD_LENGTH], length)?;
    let trailer = "Bad { code: Trailer, at: 28 }";
    reads(&rt, alloc, None, &[&SECTION, &OTHER_LENGTHS], trailer)?;
    reads(
        &rt,
        alloc,
        None,
        &[&SECTION, &INTERFACE, &PACKET, &OTHER_PACKET],
        "interface 1 262144 6 61\npacket 0 1000002 60 deadbeef\nBad { code: Interface, at: 84 }",
    )?;
    let interface = "Bad { code: Interface, at: 28 }";
    reads(&rt, alloc, None, &[&SECTION, &PACKET], interface)?;
    reads(&rt, alloc, None, &[&SECTION, &FAR_PACKET], interface)?;
    reads(&rt, alloc, None, &[&SECTION, &SIMPLE_PACKET], interface)?;
    let note = "Bad { code: Note, at: 28 }";
    reads(&rt, alloc, None, &[&SECTION, &LONG_NAMED_INTERFACE], note)?;
    let name = "interface 1 262144 6 65746830\nClean";
    reads(&rt, alloc, None, &[&SECTION, &UNMARKED_INTERFACE], name)?;
    let none = "interface 1 262144 6 61\nClean";
    reads(&rt, alloc, None, &[&SECTION, &MARKED_INTERFACE], none)
}

#[test]
fn a_cut_is_named_at_each_byte(rt: HostRuntime) -> Result<(), Fail> {
    let text = joined(rt.alloc(), &[&SECTION, &DESCRIPTION, &PACKET, &STATISTICS])?;
    for len in 0..=text.len() {
        let seen = read(rt.alloc(), None, &text.as_slice()[..len], 1000)?;
        let ending = match len {
            0..28 => "Cut { at: 0 }",
            28 => "Clean",
            29..68 => "Cut { at: 28 }",
            68 => "interface 1 262144 6 61\nClean",
            69..104 => "interface 1 262144 6 61\nCut { at: 68 }",
            104 | 168 => "interface 1 262144 6 61\npacket 0 1000002 60 deadbeef\nClean",
            _ => "interface 1 262144 6 61\npacket 0 1000002 60 deadbeef\nCut { at: 104 }",
        };
        assert_eq!(rt; seen.as_str(), ending, "cut at {len}");
    }
    Ok(())
}

#[test]
fn a_total_length_has_its_bounds(rt: HostRuntime) -> Result<(), Fail> {
    let alloc = rt.alloc();
    for (total, ending) in [
        (8, "Bad { code: Length, at: 28 }"),
        (14, "Bad { code: Length, at: 28 }"),
        (0xFFFF_FFFC, "Bad { code: Length, at: 28 }"),
        (16_777_216, "Cut { at: 28 }"),
        (16_777_220, "Bad { code: Length, at: 28 }"),
    ] {
        let block = unknown_block(alloc, total, 12)?;
        let text = joined(alloc, &[&SECTION, block.as_slice()])?;
        let seen = read(alloc, None, text.as_slice(), 1000)?;
        assert_eq!(rt; seen.as_str(), ending, "total length {total}");
    }
    let longest = unknown_block(alloc, 16_777_216, 16_777_216)?;
    let text = joined(alloc, &[&SECTION, longest.as_slice(), &INTERFACE])?;
    let seen = read(alloc, None, text.as_slice(), 65_536)?;
    assert_eq!(rt; seen.as_str(), "interface 1 262144 6 61\nClean");
    Ok(())
}

#[test]
fn blocks_of_unknown_types_are_passed_over(rt: HostRuntime) -> Result<(), Fail> {
    let alloc = rt.alloc();
    for total in 12..=64u32 {
        let block = unknown_block(alloc, total, total as usize)?;
        let text = joined(alloc, &[&SECTION, block.as_slice(), &INTERFACE])?;
        let seen = read(alloc, None, text.as_slice(), 1000)?;
        let ending = if total % 4 == 0 {
            "interface 1 262144 6 61\nClean"
        } else {
            "Bad { code: Length, at: 28 }"
        };
        assert_eq!(rt; seen.as_str(), ending, "a block of {total} bytes");
    }
    Ok(())
}

/// Gives a reader one spare body, of which it has none, and takes back what is left.
fn give_spare(rt: &impl Abort, alloc: Global, reader: &mut Reader) -> Result<Spares, Fail> {
    let mut spares = Spares::new(alloc)?;
    spares.put(Octets::from_slice(alloc, &LONG_SECTION)?);
    assert!(rt; !reader.wants_spares());
    let spares = reader.refill(spares);
    assert_eq!(rt; spares.len(), 1);
    Ok(spares)
}

/// Reads two packets behind a head, with one spare body.
fn reads_in_spare_memory(
    rt: &impl Abort,
    alloc: Global,
    head: &[u8],
    packet: &[u8],
    want: &str,
) -> Result<(), Fail> {
    let mut reader = Reader::new(alloc, Name::from_text(alloc, "a")?, None)?;
    let spares = give_spare(rt, alloc, &mut reader)?;
    for piece in [head, packet, packet] {
        feed(&mut reader, piece)?;
    }
    assert!(rt; reader.wants_spares());
    assert_eq!(rt; reader.refill(spares).len(), 0);
    assert!(rt; !reader.wants_spares());
    let mut lines = String::new(alloc);
    drain(&mut reader, &mut lines)?;
    assert!(rt; reader.wants_spares());
    assert_eq!(rt; lines.as_str(), want);
    Ok(())
}

#[test]
fn bodies_are_made_in_spare_memory(rt: HostRuntime) -> Result<(), Fail> {
    let alloc = rt.alloc();
    let events = "interface 1 262144 6 61\npacket 0 0 6 010203040506\npacket 0 0 6 010203040506\n";
    reads_in_spare_memory(&rt, alloc, &CLASSIC_HEADER, &RECORD_OF_SIX, events)?;
    let head = joined(alloc, &[&SECTION, &INTERFACE])?;
    reads_in_spare_memory(&rt, alloc, head.as_slice(), &PACKET_OF_SIX, events)
}

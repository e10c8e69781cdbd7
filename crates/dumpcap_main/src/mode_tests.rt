//! Joining, passing on and watching: the lines go to the sink, and the file to the outlet.
use crate::rows::{
    BIG_BLOCK, BIG_SECTION, BLOCK, DESCRIPTION, DESCRIPTION_OF_B, ETHERNET, HEADER, ONE_PACKET,
    SECTION, WHOLE, octets, output, run_over, texts,
};
use cap_base::Name;
use cap_outside::MemOpener;
use std::alloc::Global;
use std::process::Abort;
use std::sync::Wait;
use std::test::Fail;
use std::thread::Threads;

/// A command, and what it comes to: its words, the content of the sources `p` and `q`, the exit, the lines, the file that is
/// written, and the name of that file.
#[derive(Clone, Copy)]
struct Row<'a> {
    words: &'a [&'a str],
    first: &'a [&'a [u8]],
    second: &'a [&'a [u8]],
    exit: u8,
    lines: &'a str,
    out: &'a str,
    file: &'a [&'a [u8]],
}

/// Opens `p` and `a` with the first content, and `q` and `b` with the second.
fn opener(alloc: Global, row: &Row) -> Result<MemOpener, Fail> {
    let first = octets(alloc, row.first)?;
    let second = octets(alloc, row.second)?;
    let mut contents = Vec::new(alloc);
    contents.push((Name::from_text(alloc, "p")?, first.copy()?))?;
    contents.push((Name::from_text(alloc, "a")?, first))?;
    contents.push((Name::from_text(alloc, "q")?, second.copy()?))?;
    contents.push((Name::from_text(alloc, "b")?, second))?;
    Ok(MemOpener::new(contents, Vec::new(alloc), Vec::new(alloc), Vec::new(alloc)))
}

fn comes_to<R: Threads + Wait + Sync + Abort>(
    rt: &R,
    alloc: Global,
    row: &Row,
) -> Result<(), Fail> {
    let given = texts(alloc, row.words)?;
    let ran = run_over(rt, alloc, given.as_slice(), opener(alloc, row)?, None)?;
    let file = octets(alloc, row.file)?;
    assert_eq!(rt; ran.outcome.exit, row.exit);
    assert_eq!(rt; ran.note.written(), row.lines.as_bytes());
    assert_eq!(rt;
        output(alloc, &ran.outlet, row.out)?.as_slice(),
        file.as_slice()
    );
    assert_eq!(rt; ran.outlet.said()?.len(), 0);
    Ok(())
}

/// The statistics at time 0 of interface 0 with three packets received and delivered.
const THREE_PACKETS: [u8; 64] = [
    5, 0, 0, 0, 0x40, 0, 0, 0, 0, 0, 0, 0, 0, 0, 0, 0, 0, 0, 0, 0, 4, 0, 8, 0, 3, 0, 0, 0, 0, 0, 0,
    0, 5, 0, 8, 0, 0, 0, 0, 0, 0, 0, 0, 0, 8, 0, 8, 0, 3, 0, 0, 0, 0, 0, 0, 0, 0, 0, 0, 0, 0x40, 0,
    0, 0,
];

/// Those of one packet, without the last byte.
const SHORT_STATISTICS: [u8; 63] = [
    5, 0, 0, 0, 0x40, 0, 0, 0, 0, 0, 0, 0, 0, 0, 0, 0, 0, 0, 0, 0, 4, 0, 8, 0, 1, 0, 0, 0, 0, 0, 0,
    0, 5, 0, 8, 0, 0, 0, 0, 0, 0, 0, 0, 0, 8, 0, 8, 0, 1, 0, 0, 0, 0, 0, 0, 0, 0, 0, 0, 0, 0x40, 0,
    0,
];

/// Two files of a ring, in order and the other way round: the descriptions once, each packet, and the statistics of the
/// last. A single file is itself.
#[test]
fn joined_files(rt: HostRuntime) -> Result<(), Fail> {
    let two = Row {
        words: &["join", "j", "p", "q"],
        first: &[&SECTION, &DESCRIPTION, &BLOCK, &THREE_PACKETS],
        second: &[&SECTION, &DESCRIPTION, &THREE_PACKETS],
        exit: 0,
        lines: "files 2\npackets 1\n",
        out: "j",
        file: &[&SECTION, &DESCRIPTION, &BLOCK, &THREE_PACKETS],
    };
    let rows = [
        two,
        Row {
            words: &["join", "j", "q", "p"],
            ..two
        },
        Row {
            words: &["join", "j", "p"],
            first: &WHOLE,
            lines: "files 1\npackets 1\n",
            file: &WHOLE,
            ..two
        },
    ];
    for row in &rows {
        comes_to(&rt, rt.alloc(), row)?;
    }
    Ok(())
}

/// A description with another name, and a file that is cut.
#[test]
fn files_that_cannot_be_joined(rt: HostRuntime) -> Result<(), Fail> {
    let rows = [
        Row {
            words: &["join", "j", "p", "q"],
            first: &WHOLE,
            second: &[&SECTION, &DESCRIPTION_OF_B, &BLOCK, &ONE_PACKET],
            exit: 9,
            lines: "fault differ at description 0 in q\n",
            out: "j",
            file: &[&SECTION, &DESCRIPTION, &BLOCK],
        },
        Row {
            words: &["join", "j", "p"],
            first: &[&SECTION, &DESCRIPTION, &BLOCK, &SHORT_STATISTICS],
            second: &[],
            exit: 7,
            lines: "fault short at 104 in p\n",
            out: "j",
            file: &[],
        },
    ];
    for row in &rows {
        comes_to(&rt, rt.alloc(), row)?;
    }
    Ok(())
}

/// A block of name resolution without records, with 4 bytes.
const NAMES: [u8; 16] = [4, 0, 0, 0, 16, 0, 0, 0, 0, 0, 0, 0, 16, 0, 0, 0];

/// That block and a description with link type 1, in big-endian order.
const BIG_NAMES: [u8; 16] = [0, 0, 0, 4, 0, 0, 0, 16, 0, 0, 0, 0, 0, 0, 0, 16];

const BIG_ETHERNET: [u8; 20] = [
    0, 0, 0, 1, 0, 0, 0, 0x14, 0, 1, 0, 0, 0, 4, 0, 0, 0, 0, 0, 0x14,
];

/// A section in little-endian order is passed on with its names, one in big-endian order without them, and a classic stream
/// not at all.
#[test]
fn passed_sources(rt: HostRuntime) -> Result<(), Fail> {
    let little = Row {
        words: &["pass", "b", "o"],
        first: &[],
        second: &[&SECTION, &ETHERNET, &NAMES, &BLOCK],
        exit: 0,
        lines: "interfaces 1\npackets 1\npassed 1\n",
        out: "o",
        file: &[&SECTION, &DESCRIPTION_OF_B, &NAMES, &BLOCK],
    };
    let rows = [
        little,
        Row {
            second: &[&BIG_SECTION, &BIG_ETHERNET, &BIG_NAMES, &BIG_BLOCK],
            lines: "interfaces 1\npackets 1\npassed 0\n",
            file: &[&SECTION, &DESCRIPTION_OF_B, &BLOCK],
            ..little
        },
        Row {
            words: &["pass", "a", "o"],
            first: &[&HEADER],
            exit: 2,
            lines: "interfaces 0\npackets 0\npassed 0\nsource a: bad magic at 0\n",
            file: &[&SECTION],
            ..little
        },
    ];
    for row in &rows {
        comes_to(&rt, rt.alloc(), row)?;
    }
    Ok(())
}

/// A file and a packet are announced, and then three drops.
const ANNOUNCED: [u8; 12] = *b"F\0\0\x02o\0P\0\0\x021\0";

const DROPPED: [u8; 8] = *b"D\0\0\x043:a\0";

/// The totals of messages.
#[test]
fn watched_messages(rt: HostRuntime) -> Result<(), Fail> {
    let plain = Row {
        words: &["watch", "p", "4"],
        first: &[&ANNOUNCED],
        second: &[],
        exit: 0,
        lines: "files 1\npackets 1\ndrops 0\nreaders 4\n",
        out: "o",
        file: &[],
    };
    let rows = [
        plain,
        Row {
            first: &[&ANNOUNCED, &DROPPED],
            lines: "files 1\npackets 1\ndrops 3\nreaders 4\n",
            ..plain
        },
    ];
    for row in &rows {
        comes_to(&rt, rt.alloc(), row)?;
    }
    Ok(())
}

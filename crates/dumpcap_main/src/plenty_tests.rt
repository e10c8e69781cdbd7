//! Captures of much, with ample memory: none of them may end for want of it.
use crate::rows::{
    BLOCK, DESCRIPTION, ETHERNET, HEADER, NO_FAILS, ONE_PACKET, PACKET, Row, SECTION, WHOLE, WORDS,
    captured, comes_to, octets, output, run, run_over, texts,
};
use cap_base::{Name, Octets};
use cap_outside::MemOpener;
use std::alloc::Global;
use std::test::Fail;

const ONE_SAID: &str = "interface 0 a: received 1 written 1 dropped 0 flushed 0\nfiles 1\n";

/// A content, and behind it the same part so many times.
fn repeated(alloc: Global, head: &[u8], part: &[u8], times: usize) -> Result<Octets, Fail> {
    let mut text = Octets::from_slice(alloc, head)?;
    for _ in 0..times {
        text.append(part)?;
    }
    Ok(text)
}

/// As many sources as there may be, of one packet each.
#[test]
fn many_sources(rt: HostRuntime) -> Result<(), Fail> {
    let alloc = rt.alloc();
    let mut words = texts(alloc, &["-w", "o"])?;
    let mut said = Octets::new(alloc);
    for number in 0..64u8 {
        words.push(String::from_str(alloc, "-ia")?)?;
        let line = format!(in alloc;
            "interface {number} a: received 1 written 1 dropped 0 flushed 0\n"
        )?;
        said.append(line.as_bytes())?;
    }
    said.append(b"files 1\n")?;
    let mut contents = Vec::new(alloc);
    contents.push((
        Name::from_text(alloc, "a")?,
        octets(alloc, &[&HEADER, &PACKET])?,
    ))?;
    let opener = MemOpener::new(contents, Vec::new(alloc), Vec::new(alloc), Vec::new(alloc));
    let ran = run_over(&rt, alloc, words.as_slice(), opener, None)?;
    assert_eq!(rt; ran.outcome.exit, 0);
    assert_eq!(rt; ran.outlet.said()?.as_slice(), said.as_slice());
    let file = output(alloc, &ran.outlet, "o")?;
    assert_eq!(rt; file.len(), 28 + 64 * (40 + 36 + 64));
    Ok(())
}

/// As many interfaces as an output numbers, and one more, which ends the source.
#[test]
fn many_interfaces(rt: HostRuntime) -> Result<(), Fail> {
    let alloc = rt.alloc();
    let rows = [
        (
            256usize,
            0u8,
            "interface 255 a: received 0 written 0 dropped 0 flushed 0\nfiles 1\n",
        ),
        (257, 2, "source a: too many interfaces\nfiles 1\n"),
    ];
    for (interfaces, exit, end) in rows {
        let content = repeated(alloc, &SECTION, &ETHERNET, interfaces)?;
        let ran = run(&rt, alloc, &WORDS, &content, &[], NO_FAILS)?;
        assert_eq!(rt; ran.outcome.exit, exit);
        assert!(rt; ran.outlet.said()?.as_slice().ends_with(end.as_bytes()));
        let file = output(alloc, &ran.outlet, "o")?;
        assert_eq!(rt; file.len(), 28 + 256 * (40 + 64));
    }
    Ok(())
}

/// A source and an output with the longest names.
#[test]
fn long_names(rt: HostRuntime) -> Result<(), Fail> {
    let alloc = rt.alloc();
    let mut source = String::new(alloc);
    let mut out = String::new(alloc);
    for _ in 0..4096 {
        source.push_str("n")?;
        out.push_str("o")?;
    }
    let words = texts(alloc, &["-i", source.as_str(), "-w", out.as_str()])?;
    let mut contents = Vec::new(alloc);
    contents.push((
        Name::from_text(alloc, source.as_str())?,
        octets(alloc, &[&HEADER, &PACKET])?,
    ))?;
    let opener = MemOpener::new(contents, Vec::new(alloc), Vec::new(alloc), Vec::new(alloc));
    let ran = run_over(&rt, alloc, words.as_slice(), opener, None)?;
    assert_eq!(rt; ran.outcome.exit, 0);
    let file = output(alloc, &ran.outlet, out.as_str())?;
    assert_eq!(rt; file.len(), 28 + (40 - 4 + 4096) + 36 + 64);
    Ok(())
}

/// The most packets that may stand in the queue.
#[test]
fn longest_queue(rt: HostRuntime) -> Result<(), Fail> {
    let row = Row {
        words: &["-i", "a", "-w", "o", "-N", "16384"],
        ..captured(&[&HEADER, &PACKET], 0, &WHOLE, ONE_SAID)
    };
    comes_to(&rt, rt.alloc(), &row)
}

/// What begins and ends a block of 1,048,576 bytes of a type that is passed over.
const LONG_BEGIN: [u8; 8] = [0x77, 0, 0, 0, 0, 0, 0x10, 0];

const LONG_END: [u8; 4] = [0, 0, 0x10, 0];

/// A long block before a packet.
#[test]
fn long_block(rt: HostRuntime) -> Result<(), Fail> {
    let alloc = rt.alloc();
    let head = octets(alloc, &[&SECTION, &ETHERNET, &LONG_BEGIN, &[0; 1012]])?;
    let mut content = repeated(alloc, head.as_slice(), &[0; 1024], 1023)?;
    content.append(&LONG_END)?;
    content.append(&BLOCK)?;
    let ran = run(&rt, alloc, &WORDS, &content, &[], NO_FAILS)?;
    let wanted = octets(alloc, &WHOLE)?;
    assert_eq!(rt; ran.outcome.exit, 0);
    assert_eq!(rt;
        output(alloc, &ran.outlet, "o")?.as_slice(),
        wanted.as_slice()
    );
    Ok(())
}

/// The packet of 4 bytes with a comment of 65,532 bytes, so that its options have 65,536 without their end: what stands
/// before the comment, and behind it.
const COMMENTED: [u8; 36] = [
    6, 0, 0, 0, 0x28, 0, 1, 0, 0, 0, 0, 0, 0, 0, 0, 0, 0x42, 0x42, 0x0F, 0, 4, 0, 0, 0, 0x3C, 0, 0,
    0, 0xDE, 0xAD, 0xBE, 0xEF, 1, 0, 0xFC, 0xFF,
];

const COMMENT_END: [u8; 8] = [0, 0, 0, 0, 0x28, 0, 1, 0];

/// The most options that are kept.
#[test]
fn long_options(rt: HostRuntime) -> Result<(), Fail> {
    let alloc = rt.alloc();
    let mut packet = repeated(alloc, &COMMENTED, b"comment of 12", 5040)?;
    packet.append(b"comment of 1")?;
    packet.append(&COMMENT_END)?;
    let content = octets(alloc, &[&SECTION, &ETHERNET, packet.as_slice()])?;
    let wanted = octets(
        alloc,
        &[&SECTION, &DESCRIPTION, packet.as_slice(), &ONE_PACKET],
    )?;
    let ran = run(&rt, alloc, &WORDS, &content, &[], NO_FAILS)?;
    assert_eq!(rt; ran.outcome.exit, 0);
    assert_eq!(rt;
        output(alloc, &ran.outlet, "o")?.as_slice(),
        wanted.as_slice()
    );
    Ok(())
}

/// A ring of a dozen files with a packet each, and an empty one behind them.
#[test]
fn many_files(rt: HostRuntime) -> Result<(), Fail> {
    let alloc = rt.alloc();
    let words = ["-i", "a", "-w", "o", "-b", "packets:1"];
    let content = repeated(alloc, &HEADER, &PACKET, 12)?;
    let ran = run(&rt, alloc, &words, &content, &[], NO_FAILS)?;
    assert_eq!(rt; ran.outcome.exit, 0);
    for (name, len) in [
        ("o_00005_19700101000000", 168),
        ("o_00006_19700101000000", 168),
        ("o_00012_19700101000000", 168),
        ("o_00013_19700101000000", 132),
    ] {
        assert_eq!(rt; output(alloc, &ran.outlet, name)?.len(), len);
    }
    Ok(())
}

/// The sum of the decimal numbers in a text.
fn sum_of_numbers(text: &[u8]) -> u32 {
    let mut sum: u32 = 0;
    let mut number: u32 = 0;
    for byte in text {
        if byte.is_ascii_digit() {
            number = number
                .saturating_mul(10)
                .saturating_add((*byte - b'0') as u32);
        } else {
            sum = sum.saturating_add(number);
            number = 0;
        }
    }
    sum.saturating_add(number)
}

/// One packet more than a message may count: the messages count them all, and none was dropped.
#[test]
fn many_packets_with_messages(rt: HostRuntime) -> Result<(), Fail> {
    let alloc = rt.alloc();
    let words = ["-i", "a", "-w", "o", "--sync"];
    let content = repeated(alloc, &HEADER, &PACKET, 65)?;
    let ran = run(&rt, alloc, &words, &content, &[], NO_FAILS)?;
    let said = ran.outlet.said()?;
    assert_eq!(rt; ran.outcome.exit, 0);
    assert!(rt; said.as_slice().ends_with(b"D\0\0\x040:a\0"));
    assert_eq!(rt; sum_of_numbers(said.as_slice()), 65);
    assert_eq!(rt;
        output(alloc, &ran.outlet, "o")?.len(),
        28 + 40 + 65 * 36 + 64
    );
    Ok(())
}

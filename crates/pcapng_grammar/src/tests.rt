use crate::{CheckFault, Counted, FileFacts, What, check_file};
use cap_base::Octets;
use std::alloc::Global;
use std::test::Fail;

const HEADER: [u8; 28] = [
    0x0A, 0x0D, 0x0D, 0x0A, 0x1C, 0, 0, 0, 0x4D, 0x3C, 0x2B, 0x1A, 1, 0, 0, 0, 0xFF, 0xFF, 0xFF,
    0xFF, 0xFF, 0xFF, 0xFF, 0xFF, 0x1C, 0, 0, 0,
];

const DESCRIPTION: [u8; 40] = [
    1, 0, 0, 0, 0x28, 0, 0, 0, 1, 0, 0, 0, 0, 0, 4, 0, 2, 0, 1, 0, 0x61, 0, 0, 0, 9, 0, 1, 0, 6, 0,
    0, 0, 0, 0, 0, 0, 0x28, 0, 0, 0,
];

const PACKET: [u8; 36] = [
    6, 0, 0, 0, 0x24, 0, 0, 0, 0, 0, 0, 0, 0, 0, 0, 0, 0x42, 0x42, 0x0F, 0, 4, 0, 0, 0, 0x3C, 0, 0,
    0, 0xDE, 0xAD, 0xBE, 0xEF, 0x24, 0, 0, 0,
];

const STATISTICS: [u8; 64] = [
    5, 0, 0, 0, 0x40, 0, 0, 0, 0, 0, 0, 0, 0, 0, 0, 0, 0, 0, 0, 0, 4, 0, 8, 0, 1, 0, 0, 0, 0, 0, 0,
    0, 5, 0, 8, 0, 0, 0, 0, 0, 0, 0, 0, 0, 8, 0, 8, 0, 1, 0, 0, 0, 0, 0, 0, 0, 0, 0, 0, 0, 0x40, 0,
    0, 0,
];

/// The parts, one after another.
fn joined(alloc: Global, parts: &[&[u8]]) -> Result<Octets, Fail> {
    let mut text = Octets::new(alloc);
    for part in parts {
        text.append(part)?;
    }
    Ok(text)
}

/// The same bytes with another one at a place.
fn changed(alloc: Global, bytes: &[u8], place: usize, other: u8) -> Result<Octets, Fail> {
    let mut text = Octets::new(alloc);
    for (at, byte) in bytes.iter().enumerate() {
        text.push(if at == place { other } else { *byte })?;
    }
    Ok(text)
}

/// The first defect, or none.
fn defect(alloc: Global, bytes: &[u8]) -> Result<Option<(What, u64)>, Fail> {
    match check_file(alloc, bytes) {
        Ok(_) => Ok(None),
        Err(CheckFault::Bad { what, at }) => Ok(Some((what, at))),
        Err(CheckFault::NoMemory) => Err("memory ran out".into()),
    }
}

#[test]
fn a_file_has_its_facts(rt: HostRuntime) -> Result<(), Fail> {
    let text = joined(rt.alloc(), &[&HEADER, &DESCRIPTION, &PACKET, &STATISTICS])?;
    assert_eq!(rt; text.len(), 168);
    let Ok(facts) = check_file(rt.alloc(), text.as_slice()) else {
        return Err("the file isn't accepted".into());
    };
    let FileFacts { packets, counts } = facts;
    assert_eq!(rt; packets.len(), 1);
    assert_eq!(rt; packets.get(0), Some(&1));
    assert_eq!(rt; counts.len(), 1);
    let want = Counted {
        recv: 1,
        drop: 0,
        delivered: 1,
    };
    assert_eq!(rt; counts.get(0), Some(&want));
    Ok(())
}

#[test]
fn each_truncation_has_its_first_defect(rt: HostRuntime) -> Result<(), Fail> {
    let text = joined(
        rt.alloc(),
        &[&HEADER, &DESCRIPTION, &PACKET, &PACKET, &STATISTICS],
    )?;
    assert_eq!(rt; text.len(), 204);
    let bytes = text.as_slice();
    for (from, end, want) in [
        (0, 28, Some((What::Short, 0))),
        (28, 29, None),
        (29, 68, Some((What::Short, 28))),
        (68, 69, Some((What::Missing, 68))),
        (69, 104, Some((What::Short, 68))),
        (104, 105, Some((What::Missing, 104))),
        (105, 140, Some((What::Short, 104))),
        (140, 141, Some((What::Missing, 140))),
        (141, 204, Some((What::Short, 140))),
        (204, 205, None),
    ] {
        for len in from..end {
            let Some(front) = bytes.get(..len) else {
                return Err("the file is shorter".into());
            };
            assert_eq!(rt; defect(rt.alloc(), front)?, want, "at {len}");
        }
    }
    Ok(())
}

/// All bits of a byte turned, at each place of the file with one packet.
#[test]
fn each_turned_byte_has_its_first_defect(rt: HostRuntime) -> Result<(), Fail> {
    let text = joined(rt.alloc(), &[&HEADER, &DESCRIPTION, &PACKET, &STATISTICS])?;
    let bytes = text.as_slice();
    for (from, end, want) in [
        // the section header: type, length, magic, version and section length, second length
        (0, 4, Some((What::NoSection, 0))),
        (4, 5, Some((What::Length, 0))),
        (5, 7, Some((What::Short, 0))),
        (7, 8, Some((What::Length, 0))),
        (8, 12, Some((What::Order, 0))),
        (12, 24, Some((What::Body, 0))),
        (24, 28, Some((What::Trailer, 0))),
        // the description: type, length, link type, reserved field, snap length
        (28, 32, Some((What::Kind, 28))),
        (32, 33, Some((What::Length, 28))),
        (33, 35, Some((What::Short, 28))),
        (35, 36, Some((What::Length, 28))),
        (36, 38, None),
        (38, 40, Some((What::Body, 28))),
        (40, 44, None),
        // if_name and if_tsresol, each with code, length, value and padding; opt_endofopt; second length
        (44, 46, None),
        (46, 48, Some((What::Body, 28))),
        (48, 49, None),
        (49, 52, Some((What::Body, 28))),
        (52, 54, None),
        (54, 56, Some((What::Body, 28))),
        (56, 57, None),
        (57, 64, Some((What::Body, 28))),
        (64, 68, Some((What::Trailer, 28))),
        // the packet: type, length, interface, time, captured length, original length and data, second length
        (68, 72, Some((What::Kind, 68))),
        (72, 73, Some((What::Length, 68))),
        (73, 75, Some((What::Short, 68))),
        (75, 76, Some((What::Length, 68))),
        (76, 80, Some((What::Interface, 68))),
        (80, 88, None),
        (88, 92, Some((What::Body, 68))),
        (92, 100, None),
        (100, 104, Some((What::Trailer, 68))),
        // the statistics: type, length, interface, time, three options, opt_endofopt, second length
        (104, 108, Some((What::Kind, 104))),
        (108, 109, Some((What::Length, 104))),
        (109, 111, Some((What::Short, 104))),
        (111, 112, Some((What::Length, 104))),
        (112, 116, Some((What::Interface, 104))),
        (116, 124, None),
        (124, 128, Some((What::Body, 104))),
        (128, 136, None),
        (136, 140, Some((What::Body, 104))),
        (140, 148, None),
        (148, 152, Some((What::Body, 104))),
        (152, 160, None),
        (160, 164, Some((What::Body, 104))),
        (164, 168, Some((What::Trailer, 104))),
    ] {
        for place in from..end {
            let Some(byte) = bytes.get(place) else {
                return Err("the file is shorter".into());
            };
            let other = changed(rt.alloc(), bytes, place, *byte ^ 0xFF)?;
            assert_eq!(rt; defect(rt.alloc(), other.as_slice())?, want, "at {place}");
        }
    }
    Ok(())
}

#[test]
fn each_changed_field_has_its_first_defect(rt: HostRuntime) -> Result<(), Fail> {
    let text = joined(rt.alloc(), &[&HEADER, &DESCRIPTION, &PACKET, &STATISTICS])?;
    for (place, byte, want) in [
        (0, 0x0B, Some((What::NoSection, 0))),
        (8, 0x1A, Some((What::Order, 0))),
        (4, 0x1D, Some((What::Length, 0))),
        (4, 8, Some((What::Length, 0))),
        (7, 2, Some((What::Length, 0))),
        (7, 1, Some((What::Length, 0))),
        (6, 1, Some((What::Short, 0))),
        (24, 0x1D, Some((What::Trailer, 0))),
        (12, 2, Some((What::Body, 0))),
        (28, 2, Some((What::Kind, 28))),
        (28, 3, Some((What::Kind, 28))),
        (38, 1, Some((What::Body, 28))),
        (49, 1, Some((What::Body, 28))),
        (52, 0, Some((What::Body, 28))),
        (54, 0x10, Some((What::Body, 28))),
        (62, 4, Some((What::Body, 28))),
        (57, 1, Some((What::Body, 28))),
        (76, 1, Some((What::Interface, 68))),
        (78, 1, Some((What::Interface, 68))),
        (88, 3, Some((What::Body, 68))),
        (88, 8, Some((What::Body, 68))),
        (90, 5, Some((What::Body, 68))),
        (68, 5, Some((What::Body, 68))),
        (124, 5, Some((What::Body, 104))),
        (160, 1, Some((What::Body, 104))),
        (112, 1, Some((What::Interface, 104))),
        (36, 101, None),
        (92, 0, None),
        (128, 7, None),
    ] {
        let other = changed(rt.alloc(), text.as_slice(), place, byte)?;
        assert_eq!(rt; defect(rt.alloc(), other.as_slice())?, want, "at {place}");
    }
    Ok(())
}

#[test]
fn blocks_stand_in_order(rt: HostRuntime) -> Result<(), Fail> {
    let second = changed(rt.alloc(), &STATISTICS, 8, 1)?;
    let header: &[u8] = &HEADER;
    let description: &[u8] = &DESCRIPTION;
    let packet: &[u8] = &PACKET;
    let first: &[u8] = &STATISTICS;
    let second = second.as_slice();
    for (parts, want) in [
        (
            [header, header, &[], &[], &[]],
            Some((What::SecondSection, 28)),
        ),
        ([header, packet, &[], &[], &[]], Some((What::Interface, 28))),
        ([header, first, &[], &[], &[]], Some((What::Interface, 28))),
        (
            [header, description, first, packet, &[]],
            Some((What::Late, 132)),
        ),
        (
            [header, description, first, description, &[]],
            Some((What::Late, 132)),
        ),
        (
            [header, description, first, first, &[]],
            Some((What::Statistics, 132)),
        ),
        (
            [header, description, first, second, &[]],
            Some((What::Interface, 132)),
        ),
        (
            [header, description, description, second, &[]],
            Some((What::Statistics, 108)),
        ),
        (
            [header, description, description, first, &[]],
            Some((What::Missing, 172)),
        ),
        (
            [header, description, first, &[0], &[]],
            Some((What::Short, 132)),
        ),
        (
            [header, description, first, header, &[]],
            Some((What::SecondSection, 132)),
        ),
        ([header, description, description, first, second], None),
        ([header, description, packet, packet, first], None),
    ] {
        let text = joined(rt.alloc(), &parts)?;
        assert_eq!(rt; defect(rt.alloc(), text.as_slice())?, want);
    }
    Ok(())
}

/// Two changed bytes: of two defects in one block the first in the order, of defects in two blocks that of the first.
#[test]
fn the_first_of_two_defects_is_told(rt: HostRuntime) -> Result<(), Fail> {
    let text = joined(rt.alloc(), &[&HEADER, &DESCRIPTION, &PACKET, &STATISTICS])?;
    for (place, other, want) in [
        (0, 8, (What::NoSection, 0)),
        (8, 4, (What::Order, 0)),
        (4, 24, (What::Length, 0)),
        (32, 28, (What::Length, 28)),
        (33, 64, (What::Short, 28)),
        (64, 28, (What::Trailer, 28)),
        (28, 38, (What::Kind, 28)),
        (88, 76, (What::Body, 68)),
        (100, 88, (What::Trailer, 68)),
        (124, 112, (What::Body, 104)),
        (68, 38, (What::Body, 28)),
        (164, 76, (What::Interface, 68)),
    ] {
        let first = changed(rt.alloc(), text.as_slice(), place, 0xFD)?;
        let both = changed(rt.alloc(), first.as_slice(), other, 0xFD)?;
        assert_eq!(rt;
            defect(rt.alloc(), both.as_slice())?,
            Some(want),
            "at {place}"
        );
    }
    Ok(())
}

#[test]
fn a_file_has_at_most_256_interfaces(rt: HostRuntime) -> Result<(), Fail> {
    let mut text = joined(rt.alloc(), &[&HEADER])?;
    for _ in 0..256u32 {
        text.append(&DESCRIPTION)?;
    }
    assert_eq!(rt;
        defect(rt.alloc(), text.as_slice())?,
        Some((What::Missing, 10_268))
    );
    text.append(&DESCRIPTION)?;
    assert_eq!(rt;
        defect(rt.alloc(), text.as_slice())?,
        Some((What::Interface, 10_268))
    );
    Ok(())
}

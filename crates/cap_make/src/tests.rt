use crate::make_source;
use std::test::Fail;

/// Source 0 of one, from the start 1: a file header, and a record at time 0 of 214 bytes, which count up from 0.
const FRONT_OF_EVEN: [u8; 44] = [
    0xD4, 0xC3, 0xB2, 0xA1, 2, 0, 4, 0, 0, 0, 0, 0, 0, 0, 0, 0, 0, 0, 4, 0, 1, 0, 0, 0, // header
    0, 0, 0, 0, 0, 0, 0, 0, 214, 0, 0, 0, 214, 0, 0, 0, // record
    0, 1, 2, 3,
];

/// Source 1 of two, from the start 1: a section header, an interface, and a packet at 1 microsecond of 89 bytes, which
/// count up from 1.
const FRONT_OF_ODD: [u8; 80] = [
    0x0A, 0x0D, 0x0D, 0x0A, 28, 0, 0, 0, 0x4D, 0x3C, 0x2B, 0x1A, 1, 0, 0, 0, 0xFF, 0xFF, 0xFF,
    0xFF, 0xFF, 0xFF, 0xFF, 0xFF, 28, 0, 0, 0, // section header
    1, 0, 0, 0, 20, 0, 0, 0, 1, 0, 0, 0, 0, 0, 4, 0, 20, 0, 0, 0, // interface
    6, 0, 0, 0, 124, 0, 0, 0, 0, 0, 0, 0, 0, 0, 0, 0, 1, 0, 0, 0, 89, 0, 0, 0, 89, 0, 0, 0, // packet
    1, 2, 3, 4,
];

#[test]
fn fronts_are_these_bytes(rt: HostRuntime) -> Result<(), Fail> {
    let even = make_source(rt.alloc(), 1, 1, 1, 0)?;
    assert_eq!(rt; even.len(), 254);
    assert_eq!(rt; even.as_slice().get(..44), Some(&FRONT_OF_EVEN[..]));
    let odd = make_source(rt.alloc(), 1, 2, 2, 1)?;
    assert_eq!(rt; odd.len(), 172);
    assert_eq!(rt; odd.as_slice().get(..80), Some(&FRONT_OF_ODD[..]));
    Ok(())
}

/// Lengths and sums of bytes that a program in another language computed from the same rule.
#[test]
fn texts_have_these_lengths_and_sums(rt: HostRuntime) -> Result<(), Fail> {
    for (sources, packets, which, len, sum) in [
        (2u8, 10u64, 0u8, 807usize, 64_306u64),
        (2, 10, 1, 1_212, 117_620),
        (3, 1_000, 1, 51_796, 5_426_016),
        (3, 1_000, 2, 46_452, 5_480_888),
    ] {
        let text = make_source(rt.alloc(), 1, sources, packets, which)?;
        assert_eq!(rt; text.len(), len);
        let mut seen = 0u64;
        for byte in text.as_slice() {
            seen = seen.saturating_add(*byte as u64);
        }
        assert_eq!(rt; seen, sum);
    }
    Ok(())
}

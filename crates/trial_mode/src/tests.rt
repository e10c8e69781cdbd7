use crate::{Trialed, trial};
use cap_base::Name;
use cap_outside::MemSink;
use std::alloc::Global;
use std::process::Abort;
use std::test::Fail;

/// The lines of one stream with one packet.
const ONE: &str = "sources 1\npackets 1\naccounted 1\nfiles 1\nchecked 1\n";

fn list(alloc: Global, number: Option<u64>) -> Result<Vec<u64>, Fail> {
    let mut numbers = Vec::new(alloc);
    if let Some(number) = number {
        numbers.push(number)?;
    }
    Ok(numbers)
}

/// Whether the outlet has a file of this name.
fn has_file(trialed: &Trialed, name: &Name) -> Result<bool, Fail> {
    match &trialed.outlet {
        Some(outlet) => Ok(outlet.file(name)?.is_some()),
        None => Ok(false),
    }
}

#[test]
fn all_packets_are_accounted_for(rt: HostRuntime) -> Result<(), Fail> {
    let name = Name::from_text(rt.alloc(), "t")?;
    for (start, sources, packets, lines) in [
        (1u64, 1u8, 1u64, ONE),
        (
            7,
            2,
            3,
            "sources 2\npackets 3\naccounted 3\nfiles 1\nchecked 1\n",
        ),
        // a source without a packet
        (
            7,
            3,
            2,
            "sources 3\npackets 2\naccounted 2\nfiles 1\nchecked 1\n",
        ),
    ] {
        let mut note = MemSink::new(rt.alloc(), Vec::new(rt.alloc()));
        let trialed = trial(&rt, rt.alloc(), start, sources, packets, &mut note);
        assert_eq!(rt; trialed.exit, 0);
        assert_eq!(rt; note.written(), lines.as_bytes());
        assert!(rt; trialed.front.is_some());
        assert!(rt; has_file(&trialed, &name)?);
    }
    Ok(())
}

#[test]
fn a_failed_write_has_its_exit(rt: HostRuntime) -> Result<(), Fail> {
    for (fails, exit, lines) in [(Some(0u64), 4u8, ""), (Some(1), 0, ONE)] {
        let mut note = MemSink::new(rt.alloc(), list(rt.alloc(), fails)?);
        let trialed = trial(&rt, rt.alloc(), 1, 1, 1, &mut note);
        assert_eq!(rt; trialed.exit, exit);
        assert_eq!(rt; note.written(), lines.as_bytes());
    }
    Ok(())
}

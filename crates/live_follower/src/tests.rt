ghost use Rattle.std.specs.Prelude.{◌≤◌};

use crate::{FollowFault, Follower, Progress};
use cap_base::{Name, NoMemory, Octets};
use cap_outside::{MemView, SureView, View, ViewCall};
use std::alloc::Global;
use std::test::Fail;
use sync_pipe::Said;

const SECTION: [u8; 28] = [
    0x0A, 0x0D, 0x0D, 0x0A, 0x1C, 0, 0, 0, 0x4D, 0x3C, 0x2B, 0x1A, 1, 0, 0, 0, 0xFF, 0xFF, 0xFF,
    0xFF, 0xFF, 0xFF, 0xFF, 0xFF, 0x1C, 0, 0, 0,
];

const DESCRIPTION: [u8; 40] = [
    1, 0, 0, 0, 0x28, 0, 0, 0, 1, 0, 0, 0, 0, 0, 4, 0, 2, 0, 1, 0, 0x61, 0, 0, 0, 9, 0, 1, 0, 6, 0,
    0, 0, 0, 0, 0, 0, 0x28, 0, 0, 0,
];

/// A packet of 4 bytes of 60.
const PACKET: [u8; 36] = [
    6, 0, 0, 0, 0x24, 0, 0, 0, 0, 0, 0, 0, 0, 0, 0, 0, 0x42, 0x42, 0x0F, 0, 4, 0, 0, 0, 0x3C, 0, 0,
    0, 0xDE, 0xAD, 0xBE, 0xEF, 0x24, 0, 0, 0,
];

/// The first half of that block, and the second.
const TORN: [u8; 18] = [
    6, 0, 0, 0, 0x24, 0, 0, 0, 0, 0, 0, 0, 0, 0, 0, 0, 0x42, 0x42,
];

const OTHER_HALF: [u8; 18] = [
    0x0F, 0, 4, 0, 0, 0, 0x3C, 0, 0, 0, 0xDE, 0xAD, 0xBE, 0xEF, 0x24, 0, 0, 0,
];

/// A block whose second length differs.
const OTHER_LENGTHS: [u8; 16] = [7, 0, 0, 0, 16, 0, 0, 0, 0, 0, 0, 0, 12, 0, 0, 0];

/// How many bytes a call may read.
const BUDGET: u64 = 1 << 40;

/// A file `o` of these parts.
fn file_of(alloc: Global, parts: &[&[u8]]) -> Result<Vec<(Name, Octets)>, NoMemory> {
    let mut bytes = Octets::new(alloc);
    for part in parts {
        bytes.append(part)?;
    }
    let mut files = Vec::new(alloc);
    files.push((Name::from_text(alloc, "o")?, bytes))?;
    Ok(files)
}

fn view_of(alloc: Global, parts: &[&[u8]]) -> Result<SureView, NoMemory> {
    Ok(SureView::new(file_of(alloc, parts)?))
}

/// The file with two whole packets and a torn one.
fn two_packets(alloc: Global) -> Result<Vec<(Name, Octets)>, NoMemory> {
    file_of(alloc, &[&SECTION, &DESCRIPTION, &PACKET, &PACKET, &TORN])
}

/// What a follower answers, as a text.
fn answer<V: View>(
    alloc: Global,
    follower: &mut Follower,
    view: &mut V,
    budget: u64,
) -> Result<String, Fail>
    requires { 1 ≤ budget }
{
    let text = match follower.catch_up(view, budget) {
        Ok(Progress::Packet(packet)) => {
            format!(in alloc; "packet {} of {}", packet.body.len(), packet.orig)?
        }
        Ok(Progress::Reached) => format!(in alloc; "reached")?,
        Ok(Progress::More) => format!(in alloc; "more")?,
        Err(FollowFault::NoFile) => format!(in alloc; "no file")?,
        Err(FollowFault::Gone { name }) => format!(in alloc; "gone {}", name.as_text())?,
        Err(FollowFault::Behind { shown }) => format!(in alloc; "behind {shown}")?,
        Err(FollowFault::Bad { at }) => format!(in alloc; "bad {at}")?,
        Err(FollowFault::ViewFault) => format!(in alloc; "view fault")?,
        Err(FollowFault::NoMemory) => format!(in alloc; "no memory")?,
    };
    Ok(text)
}

/// A call of a view, as a text: of a read how many bytes it gave, none where it failed.
fn text_of(alloc: Global, call: &ViewCall) -> Result<String, Fail> {
    let text = match call {
        ViewCall::Find(name) => format!(in alloc; "find {}, ", name.as_text())?,
        ViewCall::ReadAt { name, at, gave } => {
            let count = gave.unwrap_or(0);
            format!(in alloc; "{count} of {} at {at}, ", name.as_text())?
        }
    };
    Ok(text)
}

/// The calls that a view had, as a text.
fn asked_of(alloc: Global, view: &SureView) -> Result<String, Fail> {
    let mut text = String::new(alloc);
    for call in view.asked() {
        let line = text_of(alloc, call)?;
        text.push_str(line.as_str())?;
    }
    Ok(text)
}

/// A follower that heard of the file `o` and of so many packets.
fn follower_of(alloc: Global, count: u64) -> Result<Follower, NoMemory> {
    let mut follower = Follower::new(alloc)?;
    follower.hear(&Said::File(Name::from_text(alloc, "o")?))?;
    follower.hear(&Said::Count(count))?;
    Ok(follower)
}

#[test]
fn whole_blocks_up_to_the_announced_count(rt: HostRuntime) -> Result<(), Fail> {
    let alloc = rt.alloc();
    let mut follower = follower_of(alloc, 2)?;
    let mut view = SureView::new(two_packets(alloc)?);
    for want in ["packet 4 of 60", "packet 4 of 60", "reached", "reached"] {
        let told = answer(alloc, &mut follower, &mut view, BUDGET)?;
        assert_eq!(rt; told.as_str(), want);
    }
    follower.hear(&Said::Count(1))?;
    for want in ["behind 158", "behind 158"] {
        let told = answer(alloc, &mut follower, &mut view, BUDGET)?;
        assert_eq!(rt; told.as_str(), want);
    }
    let asked = asked_of(alloc, &view)?;
    assert_eq!(rt;
        asked.as_str(),
        "find o, 158 of o at 0, find o, 0 of o at 158, find o, 0 of o at 158, "
    );
    let mut removed = SureView::new(Vec::new(alloc));
    let told = answer(alloc, &mut follower, &mut removed, BUDGET)?;
    assert_eq!(rt; told.as_str(), "gone o");
    let asked = asked_of(alloc, &removed)?;
    assert_eq!(rt; asked.as_str(), "find o, ");
    let mut grown = view_of(
        alloc,
        &[&SECTION, &DESCRIPTION, &PACKET, &PACKET, &TORN, &OTHER_HALF],
    )?;
    for want in ["packet 4 of 60", "reached"] {
        let told = answer(alloc, &mut follower, &mut grown, BUDGET)?;
        assert_eq!(rt; told.as_str(), want);
    }
    Ok(())
}

#[test]
fn nothing_is_read_that_was_not_announced(rt: HostRuntime) -> Result<(), Fail> {
    let alloc = rt.alloc();
    let mut follower = Follower::new(alloc)?;
    let mut view = MemView::new(Vec::new(alloc), [0, 1, 2].to_vec(alloc)?);
    let told = answer(alloc, &mut follower, &mut view, BUDGET)?;
    assert_eq!(rt; told.as_str(), "reached");
    follower.hear(&Said::Count(1))?;
    let told = answer(alloc, &mut follower, &mut view, BUDGET)?;
    assert_eq!(rt; told.as_str(), "no file");
    follower.hear(&Said::File(Name::from_text(alloc, "o")?))?;
    follower.hear(&Said::Count(0))?;
    let told = answer(alloc, &mut follower, &mut view, BUDGET)?;
    assert_eq!(rt; told.as_str(), "reached");
    Ok(())
}

#[test]
fn a_failing_call_can_be_made_again(rt: HostRuntime) -> Result<(), Fail> {
    let alloc = rt.alloc();
    for fails in 0..4u64 {
        let mut follower = follower_of(alloc, 2)?;
        let mut view = MemView::new(two_packets(alloc)?, [fails].to_vec(alloc)?);
        let mut faults: u32 = 0;
        for want in ["packet 4 of 60", "packet 4 of 60", "reached", "behind 158"] {
            if want == "behind 158" {
                follower.hear(&Said::Count(1))?;
            }
            let mut told = answer(alloc, &mut follower, &mut view, BUDGET)?;
            if told.as_str() == "view fault" {
                faults = faults.saturating_add(1);
                told = answer(alloc, &mut follower, &mut view, BUDGET)?;
            }
            assert_eq!(rt; told.as_str(), want);
        }
        assert_eq!(rt; faults, 1);
    }
    Ok(())
}

#[test]
fn a_call_reads_as_much_as_it_may(rt: HostRuntime) -> Result<(), Fail> {
    let alloc = rt.alloc();
    let mut follower = follower_of(alloc, 1)?;
    let mut view = view_of(alloc, &[&SECTION, &DESCRIPTION, &PACKET])?;
    for want in ["more", "more", "packet 4 of 60", "reached"] {
        let told = answer(alloc, &mut follower, &mut view, 40)?;
        assert_eq!(rt; told.as_str(), want);
    }
    let asked = asked_of(alloc, &view)?;
    assert_eq!(rt;
        asked.as_str(),
        "find o, 40 of o at 0, find o, 40 of o at 40, find o, 24 of o at 80, "
    );
    Ok(())
}

#[test]
fn a_defect_is_answered_again(rt: HostRuntime) -> Result<(), Fail> {
    let alloc = rt.alloc();
    let mut follower = follower_of(alloc, 1)?;
    let mut view = view_of(alloc, &[&SECTION, &DESCRIPTION, &PACKET, &OTHER_LENGTHS])?;
    for want in ["packet 4 of 60", "reached"] {
        let told = answer(alloc, &mut follower, &mut view, BUDGET)?;
        assert_eq!(rt; told.as_str(), want);
    }
    follower.hear(&Said::Count(1))?;
    for want in ["bad 104", "bad 104"] {
        let told = answer(alloc, &mut follower, &mut view, BUDGET)?;
        assert_eq!(rt; told.as_str(), want);
    }
    follower.hear(&Said::File(Name::from_text(alloc, "o")?))?;
    follower.hear(&Said::Count(1))?;
    let told = answer(alloc, &mut follower, &mut view, BUDGET)?;
    assert_eq!(rt; told.as_str(), "packet 4 of 60");
    Ok(())
}

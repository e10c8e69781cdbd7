ghost use Rattle.std.specs.Prelude.{◌≡◌, IfOk, OnOk, Some, [], ◌∷◌, ◌++◌};
ghost use Rattle.cap_base.specs.Lawful.{AreLawful};
ghost use Rattle.cap_base.specs.declared.endings.How.TheVariants as how;
ghost use Rattle.cap_base.specs.declared.entries.Entry.TheVariants as entry;
ghost use Rattle.cap_base.specs.declared.entries.Item.TheVariants as item;
ghost use Rattle.cap_base.specs.declared.entries.Taken.TheVariants as taken;
ghost use Rattle.capture_desk.specs.Examples as examples;

use crate::replaying::replay;
use cap_base::{
    CountList, Counts, Entry, How, Iface, Item, Limits, Name, Names, NoMemory, Notes, Octets,
    Packet, Settings, StopAt, SwitchAt, Taken,
};
use capture_desk::Act;
use pcapng_blocks::Block;
use std::alloc::Global;
use std::test::Fail;

/// One source, and one packet a file, of which two are kept.
fn a_packet_a_file(alloc: Global) -> Result<Settings, NoMemory>
    ensures lawful { IfOk result (λ s. AreLawful s) }
    ensures value { IfOk result (λ s. s ≡ examples.a_packet_a_file) }
{
    let mut sources = Names::new(alloc);
    sources.push(Name::from_text(alloc, "a")?)?;
    Ok(Settings {
        sources,
        output: Name::from_text(alloc, "o")?,
        limits: Limits {
            packets: 1000,
            bytes: Some(1_000_000),
        },
        stop: StopAt {
            packets: None,
            bytes: None,
            nanos: None,
            files: None,
        },
        switch: SwitchAt {
            packets: Some(1),
            bytes: None,
            nanos: None,
            interval: None,
            keep: Some(2),
        },
        sync: true,
        snap: None,
    })
}

fn interface(alloc: Global) -> Result<Iface, NoMemory>
    ensures { IfOk result (λ i. i ≡ examples.a) }
{
    let mut name = Octets::new(alloc);
    name.push(b'a')?;
    Ok(Iface {
        link: 1,
        snap: 262_144,
        resol: 6,
        offset: 0,
        name,
        notes: Notes::new(alloc),
    })
}

fn packet(alloc: Global) -> Result<Packet, NoMemory>
    ensures { IfOk result (λ p. p ≡ examples.packet_with 4) }
{
    let mut body = Octets::new(alloc);
    body.append(&[0, 0, 0, 0])?;
    Ok(Packet {
        iface: 0,
        time: 1_000_002,
        orig: 60,
        body,
        notes: Notes::new(alloc),
    })
}

fn take_packet(alloc: Global) -> Result<Entry, NoMemory>
    ensures { IfOk result (λ e. e ≡ examples.takes 4) }
{
    Ok(Entry::Take {
        now: 0,
        taken: Taken::Item(Item::Packet(packet(alloc)?)),
    })
}

fn counts(alloc: Global, written: u64) -> Result<CountList, NoMemory>
    ensures { IfOk result (λ cs. cs ≡ examples.counts written) }
{
    let mut counts = CountList::new(alloc)?;
    let Ok(()) = counts.push(Counts {
        recv: 3,
        drop: 0,
        flush: 0,
        written,
    }) else {
        return Err(NoMemory);
    };
    Ok(counts)
}

/// The counts of the capture, where so many packets are written.
fn tally(alloc: Global, written: u64) -> Result<Entry, NoMemory>
    ensures { IfOk result (λ e. e ≡ entry.Tally 0 (examples.counts written)) }
{
    Ok(Entry::Tally {
        now: 0,
        counts: counts(alloc, written)?,
    })
}

/// The source's entries, and the first interface that is taken.
fn first_entries(alloc: Global) -> Result<Vec<Entry>, NoMemory>
    ensures { IfOk result (λ v. v.items ≡ entry.Join 0 examples.a (Some 0) ∷ (entry.End 0 how.Clean ∷ (entry.Take 0 (taken.Item (item.Iface 0 examples.a)) ∷ []))) }
{
    let mut entries = Vec::new(alloc);
    entries.push(Entry::Join {
        source: 0,
        iface: interface(alloc)?,
        number: Some(0),
    })?;
    entries.push(Entry::End {
        source: 0,
        how: How::Clean,
    })?;
    entries.push(Entry::Take {
        now: 0,
        taken: Taken::Item(Item::Iface(0, interface(alloc)?)),
    })?;
    Ok(entries)
}

/// A packet is taken, and with it its file ends, where so many are written.
fn push_packet(alloc: Global, entries: &mut Vec<Entry>, written: u64) -> Result<(), NoMemory>
    ensures { OnOk result (entries.new.items ≡ entries.old.items ++ (examples.takes 4 ∷ (entry.Tally 0 (examples.counts written) ∷ []))) }
{
    entries.push(take_packet(alloc)?)?;
    entries.push(tally(alloc, written)?)?;
    Ok(())
}

/// The source's ending and Done are taken, and the last file and the capture are closed.
fn push_end(alloc: Global, entries: &mut Vec<Entry>) -> Result<(), NoMemory>
    ensures { OnOk result (entries.new.items ≡ entries.old.items ++ (entry.Take 0 (taken.Item (item.Ended 0 how.Clean)) ∷ (entry.Take 0 taken.Done ∷ (entry.Tally 0 (examples.counts 3) ∷ (entry.Tally 0 (examples.counts 3) ∷ []))))) }
{
    entries.push(Entry::Take {
        now: 0,
        taken: Taken::Item(Item::Ended(0, How::Clean)),
    })?;
    entries.push(Entry::Take {
        now: 0,
        taken: Taken::Done,
    })?;
    entries.push(tally(alloc, 3)?)?;
    entries.push(tally(alloc, 3)?)?;
    Ok(())
}

fn three_packets(alloc: Global) -> Result<Vec<Entry>, NoMemory>
    ensures { IfOk result (λ v. v.items ≡ examples.three_packets) }
{
    let mut entries = first_entries(alloc)?;
    push_packet(alloc, &mut entries, 1)?;
    push_packet(alloc, &mut entries, 2)?;
    push_packet(alloc, &mut entries, 3)?;
    push_end(alloc, &mut entries)?;
    Ok(entries)
}

/// An act in a few words; of bytes that are said those that can be shown.
fn shown(alloc: Global, act: &Act) -> Result<String, Fail> {
    Ok(match act {
        Act::Create(name) => format!(in alloc; "create {}", name.as_text())?,
        Act::Put(Block::Section { .. }) => String::from_str(alloc, "section")?,
        Act::Put(Block::Interface(_)) => String::from_str(alloc, "description")?,
        Act::Put(Block::Enhanced(_)) => String::from_str(alloc, "packet")?,
        Act::Put(_) => String::from_str(alloc, "statistics")?,
        Act::Finish => String::from_str(alloc, "finish")?,
        Act::Remove(name) => format!(in alloc; "remove {}", name.as_text())?,
        Act::Say(text) => said(alloc, text)?,
    })
}

fn said(alloc: Global, text: &Octets) -> Result<String, Fail> {
    let mut shown = String::from_str(alloc, "say ")?;
    for byte in text.as_slice() {
        if *byte >= 0x20 && *byte < 0x7F {
            shown.push(*byte as char)?;
        }
    }
    Ok(shown)
}

/// A line for each act.
fn lines_of(alloc: Global, acts: &[Act]) -> Result<String, Fail> {
    let mut lines = String::new(alloc);
    for act in acts {
        lines.push_str(shown(alloc, act)?.as_str())?;
        lines.push('\n')?;
    }
    Ok(lines)
}

const ACTS_OF_THREE: &str = "create o_00001_19700101000000
say Fo_00001_19700101000000
section
description
packet
say P1
statistics
finish
create o_00002_19700101000000
say Fo_00002_19700101000000
section
description
packet
say P1
statistics
finish
remove o_00001_19700101000000
create o_00003_19700101000000
say Fo_00003_19700101000000
section
description
packet
say P1
statistics
finish
remove o_00002_19700101000000
create o_00004_19700101000000
say Fo_00004_19700101000000
section
description
statistics
finish
say D0:a
";

#[test]
#[tactic(auto, using(crate::proofs::Example::three_follow))]
fn a_history_is_replayed(rt: HostRuntime) -> Result<(), Fail> {
    let alloc = rt.alloc();
    let settings = a_packet_a_file(alloc)?;
    let entries = three_packets(alloc)?;
    let acts = replay(alloc, &settings, entries.as_slice())?;
    let lines = lines_of(alloc, acts.as_slice())?;
    assert!(rt; lines.as_str() == ACTS_OF_THREE);
    Ok(())
}

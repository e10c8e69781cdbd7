ghost use Rattle.std.specs.Prelude.{◌≡◌, ℕ, ◌++◌, [], false, IfOk, OnOk};
ghost use Rattle.std.specs.List.{All};
ghost use Rattle.cap_base.specs.Lawful.{AreLawful};
ghost use Rattle.capture_desk.specs.Acts.{acts};
ghost use Rattle.capture_desk.specs.Made.{made_with};
ghost use Rattle.capture_desk.specs.Orderly.{IsOrderlySoFar};
ghost use Rattle.capture_desk.specs.Past.{Past, past};
ghost use Rattle.capture_desk.specs.Seen.{StandsFor};
ghost use Rattle.cap_base.specs.declared.entries.Entry.TheVariants as entry;
ghost use Rattle.capture_desk.specs.Told.{CanTake};
ghost use Rattle.capture_core.specs.Replaying.{CanTell};
ghost use Rattle.capture_core.specs.inner.Telling.{IsTold, Replays, is_silence as is_the_silence};

use cap_base::{CountList, Entry, Item, NoMemory, Settings, Taken, Why};
use capture_desk::{Act, Desk};
use std::alloc::Global;

/// An equal answer, in memory of its own.
fn copy_taken(taken: &Taken) -> Result<Taken, NoMemory>
    ensures { IfOk result (λ t. t ≡ taken.now) }
{
    Ok(match taken {
        Taken::Item(Item::Iface(number, iface)) => {
            Taken::Item(Item::Iface(*number, iface.copy()?))
        }
        Taken::Item(Item::Packet(packet)) => Taken::Item(Item::Packet(packet.copy()?)),
        Taken::Item(Item::Ended(source, how)) => Taken::Item(Item::Ended(*source, *how)),
        Taken::Empty => Taken::Empty,
        Taken::Done => Taken::Done,
    })
}

/// Takes all acts that wait.
fn drain(desk: &mut Desk, acts: &mut Vec<Act>) -> Result<(), NoMemory>
    ensures all { OnOk result (acts.new.items ≡ acts.old.items ++ desk.old.waiting) }
    ensures none { OnOk result (desk.new.waiting ≡ []) }
    ensures made { OnOk result (desk.new.made ≡ made_with desk.old.waiting desk.old.made) }
    ensures settings { OnOk result (desk.new.settings ≡ desk.old.settings) }
    ensures stands { OnOk result ((past : Past) → StandsFor desk.old past → StandsFor desk.new past) }
{
    'waiting: while let Some(act) = desk.next_act() {
        acts.push(act)?;
    }
    Ok(())
}

/// Whether it is a Stop for want of memory.
fn is_silence(entry: &Entry) -> bool
    ensures { result ≡ is_the_silence entry.now }
{
    matches!(
        entry,
        Entry::Stop {
            why: Why::NoMemory,
            lost: _
        }
    )
}

/// Tells a desk a Stop, and takes the acts. One for a condition was asked for by the desk itself.
fn tell_stop(desk: &mut Desk, acts: &mut Vec<Act>, why: Why) -> Result<(), NoMemory>
    requires { IsTold why }
    ensures { OnOk result ((lost : ℕ) → Replays desk.old acts.old.items desk.new acts.new.items (entry.Stop why lost)) }
{
    match why {
        Why::FileFault => tell_file_fault(desk, acts),
        Why::SyncFault => tell_say_fault(desk, acts),
        Why::Packets | Why::Filesize | Why::Duration | Why::Files | Why::NoMemory => Ok(()),
    }
}

/// Tells a desk a Stop for a file fault, and takes the acts.
fn tell_file_fault(desk: &mut Desk, acts: &mut Vec<Act>) -> Result<(), NoMemory>
    ensures { OnOk result ((lost : ℕ) → Replays desk.old acts.old.items desk.new acts.new.items (entry.Stop Why.FileFault lost)) }
{
    desk.on_file_fault()?;
    drain(desk, acts)
}

/// Tells a desk a Stop for a message that failed, and takes the acts.
fn tell_say_fault(desk: &mut Desk, acts: &mut Vec<Act>) -> Result<(), NoMemory>
    ensures { OnOk result ((lost : ℕ) → Replays desk.old acts.old.items desk.new acts.new.items (entry.Stop Why.SyncFault lost)) }
{
    desk.on_say_fault();
    drain(desk, acts)
}

/// Tells a desk a Take, and takes the acts.
fn tell_take(desk: &mut Desk, acts: &mut Vec<Act>, now: u64, taken: &Taken) -> Result<(), NoMemory>
    requires { CanTake taken.now }
    ensures { OnOk result (Replays desk.old acts.old.items desk.new acts.new.items (entry.Take now taken.now)) }
{
    let taken = copy_taken(taken)?;
    desk.on_taken(now, taken)?;
    drain(desk, acts)
}

/// Tells a desk a Tally, and takes the acts.
fn tell_tally(desk: &mut Desk, acts: &mut Vec<Act>, counts: &CountList) -> Result<(), NoMemory>
    ensures { OnOk result ((now : ℕ) → Replays desk.old acts.old.items desk.new acts.new.items (entry.Tally now counts.now)) }
{
    desk.on_counts(counts)?;
    drain(desk, acts)
}

/// Tells a desk an entry, where it is the writer's, and takes the acts.
fn tell(desk: &mut Desk, acts: &mut Vec<Act>, entry: &Entry) -> Result<(), NoMemory>
    requires write { CanTell entry.now }
    requires memory { is_the_silence entry.now ≡ false }
    ensures { OnOk result (Replays desk.old acts.old.items desk.new acts.new.items entry.now) }
{
    match entry {
        Entry::Take { now, taken } => tell_take(desk, acts, *now, taken),
        Entry::Tally { now: _, counts } => tell_tally(desk, acts, counts),
        Entry::Stop { why, lost: _ } => tell_stop(desk, acts, *why),
        Entry::Join { .. } | Entry::Offer { .. } | Entry::End { .. } => Ok(()),
    }
}

/// Runs a desk over the writer's entries of a history, and answers all acts.
///
/// The entries are orderly so far, and what was taken can be written. After a Stop for want of memory nothing is done.
pub fn replay(alloc: Global, settings: &Settings, entries: &[Entry]) -> Result<Vec<Act>, NoMemory>
    requires lawful { AreLawful settings.now }
    requires orderly { IsOrderlySoFar settings.now (past entries.now) }
    requires write { All CanTell entries.now }
    ensures { IfOk result (λ v. v.items ≡ acts settings.now (past entries.now)) }
{
    let mut desk = Desk::new(alloc, settings)?;
    let mut acts = Vec::new(alloc);
    'entries: for entry in entries {
        if is_silence(entry) {
            return Ok(acts);
        }
        tell(&mut desk, &mut acts, entry)?;
    }
    Ok(acts)
}

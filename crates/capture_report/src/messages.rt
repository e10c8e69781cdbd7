ghost use Rattle.std.specs.Prelude.{◌≡◌, ◌+◌, IfOk, min, true};
ghost use Rattle.std.specs.Str.{is_utf8};
ghost use Rattle.cap_base.specs.Lawful.{IsLawfulName};
ghost use Rattle.sync_pipe.specs.Format.{most_drops};
ghost use Rattle.sync_pipe.specs.Texts.{message_text};
ghost use Rattle.sync_pipe.specs.declared.said.Said.TheVariants as message;
ghost use Rattle.capture_report.specs.Messages.{drops_said, early_message as early_said, failure_message as failure_said};
ghost use Rattle.capture_report.specs.Sayable.{HasRoom};
ghost use Rattle.capture_report.specs.Words.{ending_words};

use crate::texts::{name_shown, octets_of};
use crate::words::words_of_ending;
use cap_base::{Counts, How, Iface, Name, NoMemory, Octets};
use std::alloc::Global;
use sync_pipe::{Said, message};

/// The most packets that a message says were dropped.
const MOST_DROPS: u64 = 1 << 62;

/// The bytes of a name are UTF-8.
#[tactic(auto, using(crate::proofs::Sayable::name_is_utf8))]
fn is_text(name: &Name)
    ensures { is_utf8 name.now ≡ true }
{
    let _bytes = name.as_text().as_bytes();
}

/// The message that a new file was created under a name.
#[tactic(auto, using(crate::proofs::Sayable::file_is_sayable))]
pub fn file_message(alloc: Global, name: Name) -> Result<Octets, NoMemory>
    requires { HasRoom name }
    ensures { IfOk result (λ o. o ≡ message_text (message.File name)) }
{
    is_text(&name);
    message(alloc, &Said::File(name))
}

/// The message that so many packets more are in the file.
#[tactic(auto, using(crate::proofs::Sayable::count_is_sayable))]
pub fn count_message(alloc: Global, packets: u8) -> Result<Octets, NoMemory>
    ensures { IfOk result (λ o. o ≡ message_text (message.Count packets)) }
{
    message(alloc, &Said::Count(packets as u64))
}

/// What is said of a call on a file that failed.
fn failure_of(alloc: Global, name: &Name) -> Result<Said, NoMemory>
    ensures { IfOk result (λ s. s ≡ failure_said name.now) }
{
    let primary = octets_of(alloc, "output failed")?;
    let secondary = octets_of(alloc, name.as_text())?;
    Ok(Said::Error(primary, secondary))
}

/// The message that a call on the file of this name failed.
pub fn failure_message(alloc: Global, name: &Name) -> Result<Octets, NoMemory>
    requires { HasRoom name.now }
    ensures { IfOk result (λ o. o ≡ message_text (failure_said name.now)) }
{
    let said = failure_of(alloc, name)?;
    message(alloc, &said)
}

/// How many packets of an interface were dropped or flushed, as far as a message can say it.
fn dropped(counts: Counts) -> u64
    ensures { result ≡ min (counts.drop + counts.flush) most_drops }
{
    counts.drop.saturating_add(counts.flush).min(MOST_DROPS)
}

/// What is said of an interface's dropped packets.
fn drops_of(alloc: Global, iface: &Iface, counts: Counts) -> Result<Said, NoMemory>
    ensures { IfOk result (λ s. s ≡ drops_said iface.now counts) }
{
    let name = name_shown(alloc, &iface.name)?;
    Ok(Said::Drops(dropped(counts), name))
}

/// The message of how many packets of an interface were dropped or flushed: at most 2^62. Of the interface's name it has
/// the first 65,000 bytes, and a question mark for each zero byte.
pub fn drops_message(alloc: Global, iface: &Iface, counts: Counts) -> Result<Octets, NoMemory>
    ensures { IfOk result (λ o. o ≡ message_text (drops_said iface.now counts)) }
{
    let said = drops_of(alloc, iface, counts)?;
    message(alloc, &said)
}

/// What is said of a source that ended early.
fn early_of(alloc: Global, name: &Name, how: How) -> Result<Said, NoMemory>
    ensures said { IfOk result (λ s. s ≡ early_said name.now how) }
    ensures room { HasRoom (ending_words how) }
{
    let words = words_of_ending(alloc, how)?;
    let primary = octets_of(alloc, "source ended early")?;
    let mut secondary = octets_of(alloc, name.as_text())?;
    secondary.append(b": ")?;
    secondary.append(words.as_bytes())?;
    Ok(Said::Error(primary, secondary))
}

/// The message that the source of this name ended early, and how.
pub fn early_message(alloc: Global, name: &Name, how: How) -> Result<Octets, NoMemory>
    requires { IsLawfulName name.now }
    ensures { IfOk result (λ o. o ≡ message_text (early_said name.now how)) }
{
    let said = early_of(alloc, name, how)?;
    message(alloc, &said)
}

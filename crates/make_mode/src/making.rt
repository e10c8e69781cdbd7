ghost use Rattle.std.specs.Prelude.{◌≡◌, ◌≤◌, ◌<◌, ◌+◌, [], ◌∷◌, ◌++◌, length, true, false, decimal, string_bytes, IfOk, IfErr, OnOk, OnErr, Err};
ghost use Rattle.cap_base.specs.Effects.{created, finished, bytes as file_bytes};
ghost use Rattle.cap_base.specs.declared.limits.TheConstants.{MAX_SOURCES};
ghost use Rattle.cap_outside.specs.Causes.{HasCause, Counts};
ghost use Rattle.cap_outside.specs.Told.{Leads};
ghost use Rattle.mode_base.specs.Outlets.{DidFront};
ghost use Rattle.make_mode.specs.Making.{MadeBy, IsMakeExit, ordered, file_name, file_effects, files_effects, stream_of, bytes_of, lines_with};
ghost use Rattle.make_mode.specs.inner.Parts.{StoppedAt, FilesStopped, EndIs, FileCause};

use crate::stop::Stop;
use cap_base::{Failed, Name};
use cap_make::make_source;
use cap_outside::{Outlet, Sink};
use mode_base::{append_text, write_text};
use std::alloc::{AllocError, Global};

/// Writes a whole file.
#[tactic(auto, using(crate::proofs::Makings::file_whole, crate::proofs::Makings::file_none, crate::proofs::Makings::file_part, crate::proofs::Makings::file_unfinished))]
fn write_file<L: Outlet>(outlet: &mut L, name: &Name, text: &[u8]) -> Result<(), Failed>
    requires file { L.has_file outlet.old ≡ false }
    ensures ok { OnOk result (Leads L.stands_for outlet.old outlet.new (created name.now ∷ (file_bytes text.now ++ finished ∷ []))) }
    ensures err { OnErr result (DidFront L.stands_for outlet.old outlet.new (created name.now ∷ (file_bytes text.now ++ finished ∷ []))) }
    ensures closed { OnOk result (L.has_file outlet.new ≡ false) }
    ensures cause { HasCause (L.file_faults outlet.old) (L.file_faults outlet.new) result }
    ensures uncounted { OnOk result (L.file_faults outlet.new ≡ L.file_faults outlet.old) }
    ensures other { L.say_faults outlet.new ≡ L.say_faults outlet.old }
{
    outlet.create(name)?;
    append_text(outlet, text)?;
    outlet.finish()?;
    Ok(())
}

/// The name of the file of a stream.
fn name_of_stream(alloc: Global, name: &Name, which: u8) -> Result<Name, Stop>
    ensures value { IfOk result (λ n. n ≡ file_name name.now which) }
    ensures starved { IfErr result (λ e. e ≡ Stop.NoMemory) }
{
    let text = text_of_name(alloc, name.as_text(), which)?;
    Ok(Name::from_text(alloc, text.as_str())?)
}

/// A text with a number behind it.
fn text_of_name(alloc: Global, name: &str, which: u8) -> Result<String, AllocError>
    ensures { IfOk result (λ s. string_bytes s ≡ name.now ++ decimal which) }
{
    format!(in alloc; "{name}{which}")
}

/// Writes the file of a stream, and answers how many bytes it has. Its memory is taken before the file is begun.
#[tactic(auto, using(crate::proofs::Makings::none_made))]
fn make_file<L: Outlet>(
    alloc: Global,
    start: u64,
    sources: u8,
    packets: u64,
    name: &Name,
    which: u8,
    outlet: &mut L,
) -> Result<u64, Stop>
    requires file { L.has_file outlet.old ≡ false }
    requires which { which < sources }
    requires sources { sources ≤ MAX_SOURCES }
    requires packets { packets ≤ 1000000 }
    ensures ok { OnOk result (Leads L.stands_for outlet.old outlet.new (file_effects (ordered start sources packets name.now) which)) }
    ensures count { IfOk result (λ n. n ≡ length (stream_of (ordered start sources packets name.now) which)) }
    ensures err { IfErr result (λ why. StoppedAt L.stands_for outlet.old outlet.new (file_effects (ordered start sources packets name.now) which) why) }
    ensures closed { OnOk result (L.has_file outlet.new ≡ false) }
    ensures starved { result ≡ Err Stop.NoMemory → L.has_file outlet.new ≡ false }
    ensures cause { FileCause (L.file_faults outlet.old) (L.file_faults outlet.new) result }
    ensures other { L.say_faults outlet.new ≡ L.say_faults outlet.old }
{
    let name = name_of_stream(alloc, name, which)?;
    let text = make_source(alloc, start, sources, packets, which)?;
    write_file(outlet, &name, text.as_slice())?;
    Ok(text.len() as u64)
}

/// The sum of two counts of bytes, where it can be counted.
fn sum_of(bytes: u64, more: u64) -> Result<u64, Stop>
    ensures value { IfOk result (λ n. n ≡ bytes + more) }
    ensures starved { IfErr result (λ e. e ≡ Stop.NoMemory) }
{
    match bytes.checked_add(more) {
        Some(sum) => Ok(sum),
        None => Err(Stop::NoMemory),
    }
}

/// Writes the files of all streams, and answers how many bytes they have together.
#[tactic(auto, using(crate::proofs::Makings::files_more, crate::proofs::Makings::bytes_more, crate::proofs::Makings::files_stopped, crate::proofs::Makings::files_starved))]
fn make_files<L: Outlet>(
    alloc: Global,
    start: u64,
    sources: u8,
    packets: u64,
    name: &Name,
    outlet: &mut L,
) -> Result<u64, Stop>
    requires file { L.has_file outlet.old ≡ false }
    requires sources { sources ≤ MAX_SOURCES }
    requires packets { packets ≤ 1000000 }
    ensures ok { OnOk result (Leads L.stands_for outlet.old outlet.new (files_effects (ordered start sources packets name.now) sources)) }
    ensures count { IfOk result (λ n. n ≡ bytes_of (ordered start sources packets name.now) sources) }
    ensures err { IfErr result (λ why. FilesStopped L.stands_for (ordered start sources packets name.now) outlet.old outlet.new why) }
    ensures closed { OnOk result (L.has_file outlet.new ≡ false) }
    ensures starved { result ≡ Err Stop.NoMemory → L.has_file outlet.new ≡ false }
    ensures cause { FileCause (L.file_faults outlet.old) (L.file_faults outlet.new) result }
    ensures other { L.say_faults outlet.new ≡ L.say_faults outlet.old }
{
    let mut bytes = 0u64;
    let mut which = 0u8;
    'streams: while which < sources {
        let more = make_file(alloc, start, sources, packets, name, which, outlet)?;
        bytes = sum_of(bytes, more)?;
        which += 1;
    }
    Ok(bytes)
}

/// The lines of what was made.
#[tactic(auto, unfolding(crate::specs::Making::lines_with))]
fn lines_of(alloc: Global, sources: u8, packets: u64, bytes: u64) -> Result<String, AllocError>
    ensures { IfOk result (λ s. string_bytes s ≡ lines_with sources packets bytes) }
{
    format!(in alloc; "sources {sources}\npackets {packets}\nbytes {bytes}\n")
}

/// Writes the files of all streams, and then the lines.
#[tactic(auto, using(crate::proofs::Makings::end_stopped, crate::proofs::Makings::end_starved))]
fn make_all<L: Outlet, K: Sink>(
    alloc: Global,
    start: u64,
    sources: u8,
    packets: u64,
    name: &Name,
    outlet: &mut L,
    note: &mut K,
) -> Result<(), Stop>
    requires file { L.has_file outlet.old ≡ false }
    requires sources { sources ≤ MAX_SOURCES }
    requires packets { packets ≤ 1000000 }
    ensures made { EndIs L.stands_for K.written K.faults (ordered start sources packets name.now) outlet.old outlet.new note.old note.new result }
    ensures closed { OnOk result (L.has_file outlet.new ≡ false) }
    ensures unwritten { result ≡ Err Stop.Unwritten → L.has_file outlet.new ≡ false }
    ensures starved { result ≡ Err Stop.NoMemory → L.has_file outlet.new ≡ false }
    ensures cause { FileCause (L.file_faults outlet.old) (L.file_faults outlet.new) result }
    ensures other { L.say_faults outlet.new ≡ L.say_faults outlet.old }
{
    let bytes = make_files(alloc, start, sources, packets, name, outlet)?;
    let lines = lines_of(alloc, sources, packets, bytes)?;
    match write_text(note, lines.as_str().as_bytes()) {
        Ok(()) => Ok(()),
        Err(_) => Err(Stop::Unwritten),
    }
}

/// Writes the streams of the generator into files: stream `s`, from 0, into the file of this name with `s` in decimal
/// behind it. Then it writes to `note` how many streams, packets and bytes there are: `sources N`, `packets N`,
/// `bytes N`. There are 1 to 64 streams, with 1 to 1,000,000 packets together. No file may be current. The exit is
///
/// - 0 where all files were finished and the lines written,
/// - 3 exactly where a call on a file failed; the outlet did the first of what there was to do, and nothing is written,
/// - 4 where the lines couldn't be written whole, all files being finished,
/// - 5 where memory ran out; the files of the first so many streams were made, perhaps all, each whole, and nothing is
///   written.
#[tactic(auto, using(crate::proofs::Makings::made_whole, crate::proofs::Makings::made_stopped, crate::proofs::Makings::stopped_exit, crate::proofs::Makings::whole_counts, crate::proofs::Makings::stopped_counts))]
pub fn make<L: Outlet, K: Sink>(
    alloc: Global,
    start: u64,
    sources: u8,
    packets: u64,
    name: &Name,
    outlet: &mut L,
    note: &mut K,
) -> u8
    requires file { L.has_file outlet.old ≡ false }
    requires sources { 1 ≤ sources }
    requires few_sources { sources ≤ MAX_SOURCES }
    requires packets { 1 ≤ packets }
    requires few_packets { packets ≤ 1000000 }
    ensures exits { IsMakeExit result }
    ensures made { MadeBy L.Outlet K.Sink (ordered start sources packets name.now) outlet.old outlet.new note.old note.new result }
    ensures files { Counts (result ≡ 3) (L.file_faults outlet.old) (L.file_faults outlet.new) }
    ensures closed { ¬ (result ≡ 3) → L.has_file outlet.new ≡ false }
    ensures unsaid { L.say_faults outlet.new ≡ L.say_faults outlet.old }
{
    match make_all(alloc, start, sources, packets, name, outlet, note) {
        Ok(()) => 0,
        Err(stop) => stop.exit(),
    }
}

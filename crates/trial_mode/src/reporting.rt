ghost use Rattle.std.specs.Prelude.{◌≡◌};
ghost use Rattle.cap_base.specs.Effects.{effects};
ghost use Rattle.cap_outside.specs.SureOutlet.{done_of};
ghost use Rattle.trial_mode.specs.inner.Ends.{one_if, ReportedSo, ConcludedSo};

use crate::checking::{check_output, count_files};
use crate::ending::ending_of;
use crate::lines::lines_of;
use crate::stop::Stop;
use cap_outside::{Sink, SureOutlet, SureSource};
use capture_run::Captured;
use mode_base::write_text;
use std::alloc::Global;

/// One file was found to be grammatical, or none.
fn one_if(found: Option<u64>) -> u8
    ensures { result ≡ one_if found }
{
    match found {
        Some(_) => 1,
        None => 0,
    }
}

/// Looks at what the outlet has done, and writes the lines.
fn report<K: Sink>(
    alloc: Global,
    sources: u8,
    packets: u64,
    outlet: &SureOutlet,
    note: &mut K,
) -> Result<(), Stop>
    ensures { ReportedSo K.written K.faults sources packets (effects (done_of outlet.now)) note.old note.new result }
{
    let files = count_files(outlet.done());
    let found = check_output(alloc, outlet)?;
    let checked = one_if(found);
    let lines = lines_of(alloc, sources, packets, found.unwrap_or(0), files, checked)?;
    match write_text(note, lines.as_str().as_bytes()) {
        Ok(()) => Ok(()),
        Err(_) => Err(Stop::Unwritten),
    }
}

/// Writes the lines, where the capture ended well.
pub fn conclude<K: Sink>(
    alloc: Global,
    sources: u8,
    packets: u64,
    captured: &Captured<SureSource>,
    outlet: &SureOutlet,
    note: &mut K,
) -> Result<(), Stop>
    ensures { ConcludedSo K.written K.faults sources packets captured.now.sources.items captured.now.writer (effects (done_of outlet.now)) note.old note.new result }
{
    match ending_of(captured) {
        Ok(()) => report(alloc, sources, packets, outlet, note),
        Err(stop) => Err(stop),
    }
}

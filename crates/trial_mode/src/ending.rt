ghost use Rattle.std.specs.Prelude.{◌≡◌};
ghost use Rattle.std.specs.List.{list_any, list_all};
ghost use Rattle.capture_threads.specs.Captures.{ends_worn};
ghost use Rattle.capture_run.specs.Exits.{ends_starved};
ghost use Rattle.trial_mode.specs.inner.Ends.{EndedSo, ends_clean, exit_by};

use crate::stop::Stop;
use cap_base::How;
use cap_outside::SureSource;
use capture_run::Captured;
use source_thread::Ended;

/// Whether memory was wanting at a source.
fn any_starved(sources: &[Ended<SureSource>]) -> bool
    ensures { result ≡ list_any ends_starved sources.now }
{
    sources
        .iter()
        .any(|ended| matches!(ended.how, How::NoMemory))
}

/// Whether a turn of a source was refused.
fn any_worn(sources: &[Ended<SureSource>]) -> bool
    ensures { result ≡ list_any ends_worn sources.now }
{
    sources.iter().any(|ended| matches!(ended.how, How::Worn))
}

/// Whether each source came to a clean end.
fn all_clean(sources: &[Ended<SureSource>]) -> bool
    ensures { result ≡ list_all ends_clean sources.now }
{
    sources.iter().all(|ended| matches!(ended.how, How::Clean))
}

/// How the capture of a trial ended. A failed call of its outlet is want of memory, and so is each ending of a source but
/// a clean one: the streams are whole, and nothing but want of memory stops the capture.
pub fn ending_of(captured: &Captured<SureSource>) -> Result<(), Stop>
    ensures { EndedSo captured.now.sources.items captured.now.writer result }
{
    let writer = captured.writer;
    if writer.file_fault || writer.say_fault || writer.no_memory {
        return Err(Stop::NoMemory);
    }
    if any_starved(&captured.sources) {
        return Err(Stop::NoMemory);
    }
    if writer.worn || any_worn(&captured.sources) {
        return Err(Stop::Worn);
    }
    if all_clean(&captured.sources) {
        Ok(())
    } else {
        Err(Stop::NoMemory)
    }
}

/// The exit number.
pub fn exit_by(end: Result<(), Stop>) -> u8
    ensures { result ≡ exit_by end }
{
    match end {
        Ok(()) => 0,
        Err(Stop::Unwritten) => 4,
        Err(Stop::NoMemory) => 5,
        Err(Stop::Worn) => 6,
    }
}

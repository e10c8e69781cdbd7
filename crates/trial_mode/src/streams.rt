ghost use Rattle.std.specs.Prelude.{◌≡◌, ◌<◌, ◌≤◌, string_bytes, length, IfOk};
ghost use Rattle.cap_base.specs.declared.limits.TheConstants.{MAX_SOURCES};
ghost use Rattle.trial_mode.specs.Streams.{streams_from, source_name};
ghost use Rattle.trial_mode.specs.inner.Opened.{IsOpened, AreOpened};

use cap_base::{Name, NoMemory};
use cap_make::make_source;
use cap_outside::{Opened, SureSource};
use std::alloc::{AllocError, Global};

fn text_of_name(alloc: Global, which: u8) -> Result<String, AllocError>
    ensures { IfOk result (λ s. string_bytes s ≡ source_name which) }
{
    format!(in alloc; "s{which}")
}

/// The name of a source.
pub fn source_name(alloc: Global, which: u8) -> Result<Name, NoMemory>
    ensures { IfOk result (λ n. n ≡ source_name which) }
{
    let text = text_of_name(alloc, which)?;
    Name::from_text(alloc, text.as_str())
}

/// Makes a stream, as a source that was opened.
fn open_stream(
    alloc: Global,
    start: u64,
    sources: u8,
    packets: u64,
    which: u8,
) -> Result<Opened<SureSource>, NoMemory>
    requires which { which < sources }
    requires sources { sources ≤ MAX_SOURCES }
    requires packets { packets ≤ 1000000 }
    ensures { IfOk result (λ o. IsOpened (streams_from start sources packets) which o) }
{
    let name = source_name(alloc, which)?;
    let text = make_source(alloc, start, sources, packets, which)?;
    Ok(Opened {
        name,
        source: Some(SureSource::new(text, Vec::new(alloc))),
    })
}

/// Makes all streams, as sources that were opened.
#[tactic(auto, using(crate::proofs::Openings::open_more))]
pub fn open_streams(
    alloc: Global,
    start: u64,
    sources: u8,
    packets: u64,
) -> Result<Vec<Opened<SureSource>>, NoMemory>
    requires sources { sources ≤ MAX_SOURCES }
    requires packets { packets ≤ 1000000 }
    ensures opened { IfOk result (λ v. AreOpened (streams_from start sources packets) 0 v.items) }
    ensures all { IfOk result (λ v. length v.items ≡ sources) }
{
    let mut opened = Vec::new(alloc);
    for which in 0..sources {
        opened.push(open_stream(alloc, start, sources, packets, which)?)?;
    }
    Ok(opened)
}

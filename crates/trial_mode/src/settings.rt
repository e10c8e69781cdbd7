ghost use Rattle.std.specs.Prelude.{◌≡◌, ◌≤◌, IfOk};
ghost use Rattle.trial_mode.specs.Streams.{source_names, trial_settings};

use crate::streams::source_name;
use cap_base::{Limits, Name, Names, NoMemory, Settings, StopAt, SwitchAt};
use std::alloc::Global;

/// The names of all sources.
fn source_names(alloc: Global, sources: u8) -> Result<Names, NoMemory>
    ensures { IfOk result (λ names. names ≡ source_names sources) }
{
    let mut names = Names::new(alloc);
    let mut which = 0u8;
    while which < sources {
        names.push(source_name(alloc, which)?)?;
        which += 1;
    }
    Ok(names)
}

/// The settings of a capture of so many sources: no condition stops it, one file is written, and the limits are those of
/// a capture whose words give none.
pub fn settings_of(alloc: Global, sources: u8) -> Result<Settings, NoMemory>
    ensures { IfOk result (λ s. s ≡ trial_settings sources) }
{
    Ok(Settings {
        sources: source_names(alloc, sources)?,
        output: Name::from_text(alloc, "t")?,
        limits: Limits {
            packets: 1_000,
            bytes: Some(1_000_000),
        },
        stop: StopAt {
            packets: None,
            bytes: None,
            nanos: None,
            files: None,
        },
        switch: SwitchAt {
            packets: None,
            bytes: None,
            nanos: None,
            interval: None,
            keep: None,
        },
        sync: false,
        snap: None,
    })
}

ghost use Rattle.std.specs.Prelude.{◌≡◌, IfOk};

use crate::failures::NoMemory;
use crate::limits::{Limits, StopAt, SwitchAt};
use crate::names::{Name, Names};

/// What a capture was asked for.
///
/// Lawful settings have 1 to 64 sources, names of 1 to 4,096 bytes without a zero byte, 1 to 16,384 packets that may
/// stand, and numbers of at least 1 in `stop` and `switch`. Several files are written where one of `switch.packets`,
/// `switch.bytes`, `switch.nanos` and `switch.interval` is given.
#[derive(Debug, Drop)]
pub struct Settings {
    /// The names of the sources; `-` is standard input.
    pub sources: Names,
    /// The name of the output, of which several files make names of their own.
    pub output: Name,
    /// How much may stand in the queue.
    pub limits: Limits,
    /// When the capture stops.
    pub stop: StopAt,
    /// When the next file begins.
    pub switch: SwitchAt,
    /// Whether messages go out, in place of the report.
    pub sync: bool,
    /// The most bytes of a packet that are captured, from 1 to 262,144; without it all are.
    pub snap: Option<u32>,
}

impl Settings {
    /// Equal settings, in memory of their own.
    pub fn copy(&self) -> Result<Settings, NoMemory>
        ensures { IfOk result (λ s. s ≡ self.now) }
    {
        Ok(Settings {
            sources: self.sources.copy()?,
            output: self.output.copy()?,
            limits: self.limits,
            stop: self.stop,
            switch: self.switch,
            sync: self.sync,
            snap: self.snap,
        })
    }
}

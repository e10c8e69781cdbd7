ghost use Rattle.std.specs.Prelude.{◌≡◌, ◌≤◌, ◌↔◌, [], false, IfOk, IsNone};
ghost use Rattle.cap_base.specs.declared.limits.TheConstants.{MAX_SOURCES};
ghost use Rattle.cap_outside.specs.Causes.{one_higher};
ghost use Rattle.cap_outside.specs.SureOutlet.{done_of, has_current};
ghost use Rattle.trial_mode.specs.Streams.{streams_from};
ghost use Rattle.trial_mode.specs.Trials.{Tried, IsTrialExit};
ghost use Rattle.trial_mode.specs.inner.Ends.{WereCaptured};

use crate::ending::exit_by;
use crate::reporting::conclude;
use crate::settings::settings_of;
use crate::streams::open_streams;
use cap_base::NoMemory;
use cap_outside::{Sink, SureClock, SureOutlet, SureSource};
use capture_run::{Captured, capture};
use packet_queue::Queue;
use std::alloc::Global;
use std::sync::Wait;
use std::thread::Threads;
use turn_cell::Front;

/// What a trial came to.
#[derive(Drop)]
pub struct Trialed {
    /// The exit number.
    pub exit: u8,
    /// The history of the capture; `None` only where memory was wanting before its first turn.
    pub front: Option<Front<Queue>>,
    /// The outlet that the capture wrote into; `None` where there is no history.
    pub outlet: Option<SureOutlet>,
}

/// Makes the streams and captures them into an outlet that did nothing yet.
fn capture_streams<R: Threads + Wait + Sync>(
    rt: &R,
    alloc: Global,
    start: u64,
    sources: u8,
    packets: u64,
    outlet: &mut SureOutlet,
) -> Result<Captured<SureSource>, NoMemory>
    requires sources { 1 ≤ sources }
    requires few_sources { sources ≤ MAX_SOURCES }
    requires few_packets { packets ≤ 1000000 }
    requires fresh { done_of outlet.old ≡ [] }
    requires no_file { has_current outlet.old ≡ false }
    ensures { IfOk result (λ c. WereCaptured (streams_from start sources packets) c.sources.items c.writer c.front outlet.new) }
{
    let settings = settings_of(alloc, sources)?;
    let opened = open_streams(alloc, start, sources, packets)?;
    let mut clock = SureClock::new(Vec::new(alloc));
    let Ok(captured) = capture(rt, alloc, &settings, opened, outlet, &mut clock) else {
        return Err(NoMemory);
    };
    Ok(captured)
}

/// A trial for which memory was wanting before the capture began.
fn starved() -> Trialed
    ensures exit { result.exit ≡ 5 }
    ensures front { IsNone result.front }
    ensures outlet { IsNone result.outlet }
{
    Trialed {
        exit: 5,
        front: None,
        outlet: None,
    }
}

/// Captures streams of the generator in memory, checks the file, and writes five lines to `note`: `sources N`,
/// `packets N`, `accounted N`, `files N` and `checked N`. There are 1 to 64 streams, with 1 to 1,000,000 packets
/// together.
///
/// The sources have the names `s0`, `s1` and so on, the output has the name `t`, and the other settings are those of
/// words that give sources and an output alone: at most 1,000 packets and 1,000,000 bytes stand in the queue, nothing
/// stops the capture, and one file is written, without messages. `accounted` counts the packets that the statistics in the
/// file have as written, dropped or flushed, `files` the files that were created, and `checked` those of them that are
/// grammatical. The exit is
///
/// - 0 where each stream was read to its end and its packets are all accounted for, and the lines were written,
/// - 4 exactly where a write to `note` failed, all else being as with 0,
/// - 5 where memory ran out, also as a failed call of the outlet; nothing is written,
/// - 6 where the 2^56 turns of the capture were spent; nothing is written.
pub fn trial<K: Sink, R: Threads + Wait + Sync>(
    rt: &R,
    alloc: Global,
    start: u64,
    sources: u8,
    packets: u64,
    note: &mut K,
) -> Trialed
    requires sources { 1 ≤ sources }
    requires few_sources { sources ≤ MAX_SOURCES }
    requires packets { 1 ≤ packets }
    requires few_packets { packets ≤ 1000000 }
    ensures exits { IsTrialExit result.exit }
    ensures both { IsNone result.front ↔ IsNone result.outlet }
    ensures starved { IsNone result.front → result.exit ≡ 5 }
    ensures failed { result.exit ≡ 4 → K.faults note.new ≡ one_higher (K.faults note.old) }
    ensures unfailed { ¬ (result.exit ≡ 4) → K.faults note.new ≡ K.faults note.old }
    ensures tried { Tried K.written K.faults (streams_from start sources packets) result.front result.outlet note.old note.new result.exit }
{
    let mut outlet = SureOutlet::new(alloc);
    let Ok(captured) = capture_streams(rt, alloc, start, sources, packets, &mut outlet) else {
        return starved();
    };
    let end = conclude(alloc, sources, packets, &captured, &outlet, note);
    Trialed {
        exit: exit_by(end),
        front: Some(captured.front),
        outlet: Some(outlet),
    }
}

//! The capture that the words of a command line ask for.
ghost use Rattle.std.specs.Prelude.{◌≡◌, ◌≤◌, ◌⊎◌, length, map, [], false, vec_capacity, IfSome, IsNone};
ghost use Rattle.std.specs.List.{count_by};
ghost use Rattle.cap_base.specs.Lawful.{AreLawful};
ghost use Rattle.cap_outside.specs.Causes.{one_higher};
ghost use Rattle.source_thread.specs.declared.ended.Ended.{Ended as EndedSource};
ghost use Rattle.capture_run.specs.Command.{RoseBy};
ghost use Rattle.capture_mode.specs.Opening.{is_lost};
ghost use Rattle.capture_mode.specs.Outcomes.{Captures, IsCaptureExit, AreTurnsLeft, EachSource, EndsClosed, IsContent, objects};
ghost use Rattle.capture_mode.specs.inner.Opened.{unread};

use crate::exits::exit_of;
use crate::opening::open_sources;
use crate::outcome::Outcome;
use cap_base::{How, Settings};
use cap_outside::{Clock, Opened, Opener, Outlet, Source};
use capture_run::capture;
use source_thread::Ended;
use std::alloc::Global;
use std::sync::Wait;
use std::thread::Threads;

/// What a capture without its first turn comes to: the sources that were opened come back as they are, in `room`, which is
/// empty and has room for them.
fn unbegun<S: Source>(opened: Vec<Opened<S>>, room: Vec<Ended<S>>) -> Outcome<S>
    requires empty { room.items ≡ [] }
    requires room { length opened.items ≤ vec_capacity room }
    ensures exit { result.exit ≡ 5 }
    ensures sources { result.sources.items ≡ map unread opened.items }
    ensures front { IsNone result.front }
{
    let mut sources = room;
    let mut waiting = opened.into_iter();
    'sources: while let Some(Opened { name, source }) = waiting.next() {
        sources.push_reserved(Ended {
            name,
            source,
            how: How::NoMemory,
        });
    }
    Outcome {
        exit: 5,
        sources,
        front: None,
    }
}

/// Captures by these settings: opens each source once, in order, and captures from those that could be opened, until the
/// writer has taken all that they gave. No file may be current. The exit is that of the first of these that holds:
///
/// - 3 where a call on a file failed,
/// - 4 where a message couldn't be said,
/// - 5 where memory was wanting,
/// - 6 where the turns were spent,
/// - 2 where a source couldn't be opened or read, has a defect, is cut, describes one interface more than an output
///   numbers, or is too long,
/// - 0 else.
///
/// Where memory was wanting before the first turn, no front comes back, and of the sources those that were opened, unread.
pub fn run_capture<O: Opener, L: Outlet, C: Clock, R: Threads + Wait + Sync>(
    rt: &R,
    alloc: Global,
    settings: &Settings,
    opener: &mut O,
    outlet: &mut L,
    clock: &mut C,
) -> Outcome<O::Source>
    requires settings { AreLawful settings.now }
    requires no_file { L.has_file outlet.old ≡ false }
    ensures captured { Captures O.Opener O.Source.Source L.Outlet C.Clock settings.now result (objects opener.old outlet.old clock.old) (objects opener.new outlet.new clock.new) }
    // each source came back, in order, with its name
    ensures names { IfSome result.front (λ _. map (λ (e : EndedSource O.Source). e.name) result.sources.items ≡ settings.now.sources) }
    ensures exits { IsCaptureExit result.exit }
    // a failed call has its exit or its missing source, and these come only with a failed call
    ensures opens { IfSome result.front (λ _. RoseBy (count_by is_lost result.sources.items) (O.faults opener.old) (O.faults opener.new)) }
    ensures file_cause { result.exit ≡ 3 → L.file_faults outlet.new ≡ one_higher (L.file_faults outlet.old) }
    ensures file_seen { AreTurnsLeft result.front → ¬ (result.exit ≡ 3) → L.file_faults outlet.new ≡ L.file_faults outlet.old }
    ensures say_cause { result.exit ≡ 4 → L.say_faults outlet.new ≡ one_higher (L.say_faults outlet.old) }
    ensures say_seen { AreTurnsLeft result.front → ¬ (result.exit ≡ 3) → ¬ (result.exit ≡ 4) → L.say_faults outlet.new ≡ L.say_faults outlet.old }
    // so it may be called again
    ensures closed { (result.exit ≡ 0) ⊎ (result.exit ≡ 2) → L.has_file outlet.new ≡ false }
    ensures closed_unsaid { result.exit ≡ 4 → IfSome result.front (EndsClosed settings.now.sources (L.has_file outlet.new)) }
    ensures closed_starved { result.exit ≡ 5 → IfSome result.front (EndsClosed settings.now.sources (L.has_file outlet.new)) }
    ensures content { EachSource (IsContent (O.content opener.old) O.Source.taken O.Source.left) result.sources.items }
{
    let Ok(room) = Vec::with_capacity(alloc, settings.sources.len()) else {
        return unbegun(Vec::new(alloc), Vec::new(alloc));
    };
    let opened = match open_sources(alloc, &settings.sources, opener) {
        Ok(opened) => opened,
        Err(opened) => return unbegun(opened, room),
    };
    match capture(rt, alloc, settings, opened, outlet, clock) {
        Err(opened) => unbegun(opened, room),
        Ok(captured) => Outcome {
            exit: exit_of(&captured.sources, captured.writer),
            sources: captured.sources,
            front: Some(captured.front),
        },
    }
}

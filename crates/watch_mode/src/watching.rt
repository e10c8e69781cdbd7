ghost use Rattle.watch_mode.specs.Lines.{totals_lines};
ghost use Rattle.watch_mode.specs.Watching.{SaidTotals, WatchIs};
ghost use Rattle.watch_mode.specs.inner.Runs.{ReportHow};

use crate::beside::watch_source;
use crate::lines::lines_of_totals;
use cap_base::Name;
use cap_outside::{Opener, Sink, View};
use follow_mode::{Stop, conclude};
use live_board::BoardState;
use mode_base::{Reported, write_open_failed, write_text};
use std::alloc::Global;
use std::sync::Wait;
use std::thread::Threads;

/// The exit where all messages were followed and their totals written.
const DONE: u8 = 0;

/// The exit where the messages can't be read.
const UNREADABLE: u8 = 2;

/// The exit where a line can't be written.
const UNWRITTEN: u8 = 4;

/// The exit where memory ran out.
const NO_MEMORY: u8 = 5;

/// Writes the totals that so many readers have seen, and answers the exit.
fn write_totals<K: Sink>(alloc: Global, state: BoardState, readers: usize, note: &mut K) -> u8
    ensures { SaidTotals K.written K.faults note.old note.new result (totals_lines state readers) }
{
    let Ok(lines) = lines_of_totals(alloc, state, readers) else {
        return NO_MEMORY;
    };
    match write_text(note, lines.as_str().as_bytes()) {
        Ok(()) => DONE,
        Err(_) => UNWRITTEN,
    }
}

/// Writes the totals, or the line that says why the messages weren't all followed, and answers the exit.
fn report<K: Sink>(
    alloc: Global,
    name: &Name,
    end: Result<(BoardState, usize), Stop>,
    note: &mut K,
) -> u8
    ensures { ReportHow K.written K.faults name.now note.old note.new end result }
{
    match end {
        Ok((state, readers)) => write_totals(alloc, state, readers, note),
        Err(why) => conclude(alloc, name, Err(why), note),
    }
}

/// Watches a capture: follows it as `follow` does, and publishes its totals on a board behind each message, from which so
/// many readers read at the same time, each in a thread of its own.
///
/// A message of a new file adds a file, one of a count its packets, once these were all followed, and one of drops the
/// packets that were dropped. Once the messages have ended each reader is told of all that was published, and looks once
/// more. Then the lines `files F`, `packets P`, `drops D` and `readers R` are written to `note`. Each total ends at 2^62.
///
/// The exit is as with `follow`; where the messages weren't all followed, the line that says why is written alone.
#[tactic(auto, using(crate::proofs::Endings::watched, crate::proofs::Endings::exit_is, crate::proofs::Endings::two_is))]
pub fn watch<O: Opener, K: Sink, V: View, R: Threads + Wait + Sync>(
    rt: &R,
    alloc: Global,
    name: &Name,
    readers: u32,
    opener: &mut O,
    note: &mut K,
    view: &mut V,
) -> Reported<O::Source>
    ensures { WatchIs O.Opener O.Source.Source K.Sink V.View name.now readers result opener.old opener.new note.old note.new view.old view.new }
{
    match opener.get(name) {
        Ok(mut source) => {
            let end = watch_source(rt, alloc, &mut source, view, readers);
            Reported {
                exit: report(alloc, name, end, note),
                source: Some(source),
            }
        }
        Err(_) => {
            write_open_failed(note, name);
            Reported {
                exit: UNREADABLE,
                source: None,
            }
        }
    }
}

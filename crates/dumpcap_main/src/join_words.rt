ghost use Rattle.std.specs.Prelude.{◌≡◌, ◌≤◌, ◌⊎◌, [], false, length, map, vec_capacity, None};
ghost use Rattle.capture_mode.specs.Outcomes.{EachSource, IsContent};
ghost use Rattle.dumpcap_main.specs.Command.{JoinsIs, IsStarved, asked_for as asked_one};

use crate::outcome::starved;
use cap_base::{How, Name, Names};
use cap_outside::{Opened, Opener, Outlet, Sink};
use capture_mode::Outcome;
use join_mode::join_files;
use source_thread::Ended;
use std::alloc::Global;

/// The sources that were asked for, each with its name.
fn asked_for<S: Drop>(mut sources: Vec<Ended<S>>, opened: Vec<Opened<S>>) -> Vec<Ended<S>>
    requires none { sources.items ≡ [] }
    requires room { length opened.items ≤ vec_capacity sources }
    ensures { result.items ≡ map asked_one opened.items }
{
    let mut waiting = opened.into_iter();
    'opened: while let Some(Opened { name, source }) = waiting.next() {
        sources.push_reserved(Ended {
            name,
            source,
            how: How::Clean,
        });
    }
    sources
}

/// Runs the words `join`, a name and the names of 1 to 1,000 files.
pub fn run_join<O: Opener, L: Outlet, K: Sink>(
    alloc: Global,
    out: Name,
    names: Names,
    opener: &mut O,
    outlet: &mut L,
    note: &mut K,
) -> Outcome<O::Source>
    requires some { 1 ≤ length names }
    requires few { length names ≤ 1000 }
    requires file { L.has_file outlet.old ≡ false }
    ensures joined { IsStarved {A = O × L × K} result (opener.old, outlet.old, note.old) (opener.new, outlet.new, note.new)
        ⊎ JoinsIs O.Opener O.Source.Source L.Outlet K.Sink out names result opener.old opener.new outlet.old outlet.new note.old note.new }
    ensures front { result.front ≡ None }
    ensures content { EachSource (IsContent (O.content opener.old) O.Source.taken O.Source.left) result.sources.items }
{
    let Ok(sources) = Vec::with_capacity(alloc, names.len()) else {
        return starved(alloc);
    };
    let joined = join_files(alloc, &out, &names, opener, outlet, note);
    Outcome {
        exit: joined.exit,
        sources: asked_for(sources, joined.sources),
        front: None,
    }
}

ghost use Rattle.std.specs.Prelude.{◌≡◌, ◌≤◌, ◌<◌, ◌+◌, ◌*◌, ◌^◌, ℕ, List, [], ◌∷◌, ◌++◌, map, All, true, false, length, IfOk, IfErr, OnOk, OnErr, vec_capacity};
ghost use Rattle.cap_base.specs.declared.limits.TheConstants.{MAX_JOINED_FILES};
ghost use Rattle.cap_base.specs.Effects.{created, finished, bytes as file_bytes};
ghost use Rattle.cap_outside.specs.Told.{Leads, Tells};
ghost use Rattle.mode_base.specs.Reading.{WasRead};
ghost use Rattle.mode_base.specs.Written.{WroteWhole, WrotePrefix};
ghost use Rattle.mode_base.specs.Outlets.{DidFront, DidSome};
ghost use Rattle.ring_join.specs.Whole.{text};
ghost use Rattle.ring_join.specs.Joined.{joined_so_far};
ghost use Rattle.join_mode.specs.Lines.{lines_with};
ghost use Rattle.ring_join.specs.Adding.{nothing_known};
ghost use Rattle.join_mode.specs.Joining.{name_of, IsRead, GivesContent, JoinIs, IsBegun, whole_effects, meanings, objects};
ghost use Rattle.join_mode.specs.inner.Parts.{ComesTo, Progress, HaltedAmong, HaltedBefore, Finishes, OpenCause, FileCause, IsOfInput, EndsBy, ReportIs, last_named};

use crate::inputs::join_source;
use crate::joined::Joined;
use crate::lines::{line_of_defect, line_of_difference, lines_of};
use crate::stop::Stop;
use cap_base::{Name, Names, NoMemory, Octets};
use cap_outside::{Opened, Opener, Outlet, Sink};
use mode_base::{empty_piece, write_open_failed, write_read_failed, write_text};
use ring_join::Joiner;
use std::alloc::Global;

/// A source that was asked for, and how many packets its file has, or why it wasn't joined.
#[derive(Drop)]
struct Attempt<S> {
    opened: Opened<S>,
    joined: Result<u64, Stop>,
}

/// Opens the source of a name, reads it to its end, and joins its file. Where memory is wanting for the name, nothing was
/// done.
fn try_to_join<O: Opener, L: Outlet>(
    name: &Name,
    joiner: &mut Joiner,
    piece: &mut [u8],
    content: &mut Octets,
    opener: &mut O,
    outlet: &mut L,
) -> Result<Attempt<O::Source>, NoMemory>
    requires piece { length piece.old ≡ 65536 }
    requires file { L.has_file outlet.old ≡ true }
    ensures named { IfOk result (λ a. a.opened.name ≡ name.now) }
    ensures outcome { IfOk result (λ a. ComesTo O.Source.Source L.Outlet joiner.old joiner.new outlet.old outlet.new a.opened.source a.joined) }
    ensures few { IfOk result (λ a. IfOk a.joined (λ count. count ≤ 2 ^ 30)) }
    ensures content { IfOk result (λ a. GivesContent (O.content opener.old) O.Source.taken O.Source.left a.opened) }
    ensures same { (other : List ℕ) → O.content opener.new other ≡ O.content opener.old other }
    ensures opened { OnOk result (Leads O.opened opener.old opener.new (name.now ∷ [])) }
    ensures opens { IfOk result (λ a. OpenCause (O.faults opener.old) (O.faults opener.new) a.joined) }
    ensures files { IfOk result (λ a. FileCause (L.file_faults outlet.old) (L.file_faults outlet.new) a.joined) }
    ensures none { OnErr result (opener.new ≡ opener.old) }
    ensures nothing { OnErr result (outlet.new ≡ outlet.old) }
    ensures file { L.has_file outlet.new ≡ true }
    ensures other { L.say_faults outlet.new ≡ L.say_faults outlet.old }
{
    let copy = name.copy()?;
    match opener.get(name) {
        Ok(mut source) => {
            let joined = join_source(joiner, piece, content, &mut source, outlet);
            Ok(Attempt {
                opened: Opened {
                    name: copy,
                    source: Some(source),
                },
                joined,
            })
        }
        Err(_) => Ok(Attempt {
            opened: Opened {
                name: copy,
                source: None,
            },
            joined: Err(Stop::Unopened),
        }),
    }
}

/// Joins the files of all names, one after another, up to the first that can't be.
fn join_inputs<O: Opener, L: Outlet>(
    names: &Names,
    joiner: &mut Joiner,
    piece: &mut [u8],
    content: &mut Octets,
    sources: &mut Vec<Opened<O::Source>>,
    opener: &mut O,
    outlet: &mut L,
) -> Result<u64, Stop>
    requires few { length names.now ≤ MAX_JOINED_FILES }
    requires piece { length piece.old ≡ 65536 }
    requires none { sources.old.items ≡ [] }
    requires room { vec_capacity sources.old ≡ length names.now }
    requires fresh { joiner.old ≡ nothing_known }
    requires file { L.has_file outlet.old ≡ true }
    ensures ok { IfOk result (λ count. Progress (IsRead O.Source.Source) L.stands_for names.now sources.new.items outlet.old outlet.new joiner.new count) }
    ensures stopped { IfErr result (λ why. HaltedAmong O.Source.Source L.Outlet names.now sources.new.items outlet.old outlet.new why) }
    ensures contents { All (GivesContent (O.content opener.old) O.Source.taken O.Source.left) sources.new.items }
    ensures opened { Leads O.opened opener.old opener.new (map name_of sources.new.items) }
    ensures opens { OpenCause (O.faults opener.old) (O.faults opener.new) result }
    ensures files { FileCause (L.file_faults outlet.old) (L.file_faults outlet.new) result }
    ensures file { L.has_file outlet.new ≡ true }
    ensures other { L.say_faults outlet.new ≡ L.say_faults outlet.old }
{
    let mut packets = 0u64;
    'names: for name in names.as_slice() {
        let Attempt { opened, joined } = try_to_join(name, joiner, piece, content, opener, outlet)?;
        sources.push_reserved(opened);
        packets += joined?;
    }
    Ok(packets)
}

/// Writes the joined file.
fn join_all<O: Opener, L: Outlet>(
    alloc: Global,
    out: &Name,
    names: &Names,
    sources: &mut Vec<Opened<O::Source>>,
    opener: &mut O,
    outlet: &mut L,
) -> Result<u64, Stop>
    requires some { 1 ≤ length names.now }
    requires few { length names.now ≤ MAX_JOINED_FILES }
    requires none { sources.old.items ≡ [] }
    requires room { vec_capacity sources.old ≡ length names.now }
    requires file { L.has_file outlet.old ≡ false }
    ensures ok { IfOk result (λ count. Finishes (IsRead O.Source.Source) L.stands_for out.now names.now sources.new.items outlet.old outlet.new count) }
    ensures stopped { IfErr result (λ why. HaltedBefore O.Source.Source L.Outlet out.now names.now sources.new.items outlet.old outlet.new why) }
    ensures contents { All (GivesContent (O.content opener.old) O.Source.taken O.Source.left) sources.new.items }
    ensures opened { Leads O.opened opener.old opener.new (map name_of sources.new.items) }
    ensures opens { OpenCause (O.faults opener.old) (O.faults opener.new) result }
    ensures files { FileCause (L.file_faults outlet.old) (L.file_faults outlet.new) result }
    ensures closed { OnOk result (L.has_file outlet.new ≡ false) }
    ensures current { IfErr result (λ why. IsOfInput why → L.has_file outlet.new ≡ true) }
    ensures other { L.say_faults outlet.new ≡ L.say_faults outlet.old }
{
    let mut piece = empty_piece(alloc)?;
    let mut joiner = Joiner::new(alloc);
    let mut content = Octets::new(alloc);
    outlet.create(out)?;
    let packets = join_inputs(
        names,
        &mut joiner,
        &mut piece,
        &mut content,
        sources,
        opener,
        outlet,
    )?;
    joiner.end(outlet)?;
    outlet.finish()?;
    Ok(packets)
}

/// Writes the lines for all files, and answers the exit.
fn report<K: Sink>(alloc: Global, files: usize, packets: u64, note: &mut K) -> u8
    ensures { ReportIs K.written K.faults note.old note.new (lines_with files packets) result }
{
    let Ok(lines) = lines_of(alloc, files, packets) else {
        return 5;
    };
    match write_text(note, lines.as_str().as_bytes()) {
        Ok(()) => 0,
        Err(_) => 4,
    }
}

/// Finishes the output as it stands, behind an input of this name that couldn't be joined, writes the line for it, and
/// answers the exit. The line's memory is taken first.
fn end_stopped<L: Outlet, K: Sink>(
    alloc: Global,
    stop: Stop,
    name: &Name,
    outlet: &mut L,
    note: &mut K,
) -> u8
    requires { IsOfInput stop → L.has_file outlet.old ≡ true }
    ensures ends { EndsBy L.Outlet K.Sink stop name.now outlet.old outlet.new note.old note.new result }
    ensures other { L.say_faults outlet.new ≡ L.say_faults outlet.old }
{
    match stop {
        Stop::File => 3,
        Stop::NoMemory => 5,
        Stop::Unopened => {
            let _ = outlet.finish();
            write_open_failed(note, name);
            2
        }
        Stop::Unreadable => {
            let _ = outlet.finish();
            write_read_failed(note, name);
            2
        }
        Stop::Bad { what, at } => {
            let Ok(line) = line_of_defect(alloc, what, at, name) else {
                return 5;
            };
            let _ = outlet.finish();
            let _ = write_text(note, line.as_str().as_bytes());
            7
        }
        Stop::Differ { number } => {
            let Ok(line) = line_of_difference(alloc, number, name) else {
                return 5;
            };
            let _ = outlet.finish();
            let _ = write_text(note, line.as_str().as_bytes());
            9
        }
    }
}

/// The name of the last source that was asked for, or another one where none was.
fn last_name<'a, S>(sources: &'a [Opened<S>], other: &'a Name) -> &'a Name
    ensures { result.now ≡ last_named sources.now other.now }
{
    match sources.last() {
        Some(last) => &last.name,
        None => other,
    }
}

/// Writes the joined file, and the lines for it.
fn join_and_report<O: Opener, L: Outlet, K: Sink>(
    alloc: Global,
    out: &Name,
    names: &Names,
    mut sources: Vec<Opened<O::Source>>,
    opener: &mut O,
    outlet: &mut L,
    note: &mut K,
) -> Joined<O::Source>
    requires some { 1 ≤ length names.now }
    requires few { length names.now ≤ MAX_JOINED_FILES }
    requires none { sources.items ≡ [] }
    requires room { vec_capacity sources ≡ length names.now }
    requires file { L.has_file outlet.old ≡ false }
    ensures content { All (GivesContent (O.content opener.old) O.Source.taken O.Source.left) result.sources.items }
    ensures joined { JoinIs (meanings O.Opener O.Source.Source L.Outlet K.Sink) out.now names.now result
        (objects opener.old outlet.old note.old) (objects opener.new outlet.new note.new) }
{
    match join_all(alloc, out, names, &mut sources, opener, outlet) {
        Ok(packets) => {
            let exit = report(alloc, names.len(), packets, note);
            Joined { exit, sources }
        }
        Err(stop) => {
            let name = last_name(sources.as_slice(), out);
            let exit = end_stopped(alloc, stop, name, outlet, note);
            Joined { exit, sources }
        }
    }
}

/// Joins the files of some names, 1 to 1,000, in order, into one of the name `out`: pcapng (draft-ietf-opsawg-pcapng) as
/// this program writes it. Each is opened once, and read to its end; of a longer one than 2^30 bytes, one byte more is
/// read. The first that can't be joined ends the joining. No file may be current.
///
/// The lines `files N` and `packets N` are written to `note`. The exit is
///
/// - 0 where all files were joined and the lines written,
/// - 2 exactly where a file couldn't be opened or read; `source NAME: open failed` or `source NAME: read failed` is
///   written, as far as that succeeds,
/// - 3 where a call on the output failed before; nothing is done behind it,
/// - 4 where the lines couldn't be written whole, all files being joined,
/// - 5 where memory ran out; nothing is done behind that. The memory for the line of 7 or 9 is taken before the output is
///   finished,
/// - 7 where a file has a defect: `fault WHAT at PLACE in NAME`,
/// - 9 where a file's interface descriptions don't begin with those of the file before it: `fault differ at description
///   NUMBER in NAME`.
///
/// At 2, 7 and 9 the output is finished with the files before that one, without statistics; where that fails, or the line
/// can't be written, the exit stays.
#[tactic(auto, using(crate::proofs::Endings::unbegun_is))]
pub fn join_files<O: Opener, L: Outlet, K: Sink>(
    alloc: Global,
    out: &Name,
    names: &Names,
    opener: &mut O,
    outlet: &mut L,
    note: &mut K,
) -> Joined<O::Source>
    requires some { 1 ≤ length names.now }
    requires few { length names.now ≤ MAX_JOINED_FILES }
    requires file { L.has_file outlet.old ≡ false }
    ensures content { All (GivesContent (O.content opener.old) O.Source.taken O.Source.left) result.sources.items }
    ensures joined { JoinIs (meanings O.Opener O.Source.Source L.Outlet K.Sink) out.now names.now result
        (objects opener.old outlet.old note.old) (objects opener.new outlet.new note.new) }
{
    let Ok(sources) = Vec::with_capacity(alloc, names.len()) else {
        return Joined {
            exit: 5,
            sources: Vec::new(alloc),
        };
    };
    join_and_report(alloc, out, names, sources, opener, outlet, note)
}

ghost use Rattle.std.specs.Prelude.{ℕ, ◌≡◌, ◌≤◌, ◌<◌, ◌+◌, [], ◌∷◌, true, false, length, Some, IfOk, IfErr, IfSome, IsNone, IsSome, OnOk, OnErr};
ghost use Rattle.cap_outside.specs.Causes.{one_higher, Counts as CountsWhere};
ghost use Rattle.cap_outside.specs.Told.{Leads, Tells};
ghost use Rattle.mode_base.specs.Written.{Wrote};
ghost use Rattle.mode_base.specs.Sources.{facts_by, whole_of, open_failed_line};
ghost use Rattle.pass_blocks.specs.Text.{file_text};
ghost use Rattle.pass_mode.specs.Passing.{PassedBy, IsPassExit};
ghost use Rattle.pass_mode.specs.inner.Running.{FileSo, FileCause, Concluded, IsExitOf};

use crate::counts::Counts;
use crate::putting::hand_over;
use crate::reading::{PIECE_LEN, read_source};
use crate::report::report_of;
use crate::stop::Stop;
use block_writer::OutputBuffer;
use cap_base::{Failed, How, Name, NoMemory, Order};
use cap_outside::{Opener, Outlet, Sink, Source};
use mode_base::{Reported, write_open_failed, write_text};
use pass_blocks::Passer;
use pcapng_blocks::Block;
use std::alloc::Global;

/// The exit where the source couldn't be opened or read, or isn't whole and lawful.
const ENDED_EARLY: u8 = 2;

/// The exit where a line can't be written.
const UNWRITTEN: u8 = 4;

/// The exit where memory ran out.
const NO_MEMORY: u8 = 5;

/// How a source ended, and how many of its blocks were written.
#[derive(Clone, Copy, Debug)]
pub struct Summary {
    pub how: How,
    pub counts: Counts,
}

/// Room for one read.
fn empty_piece(alloc: Global) -> Result<Vec<u8>, NoMemory>
    ensures { IfOk result (λ v. length v.items ≡ 65536) }
{
    let mut piece = Vec::new(alloc);
    piece.resize(PIECE_LEN, 0)?;
    Ok(piece)
}

/// A buffer in which the section header waits.
fn begun_buffer(alloc: Global) -> Result<OutputBuffer, NoMemory>
    ensures { IfOk result (λ b. b ≡ file_text []) }
{
    let mut buffer = OutputBuffer::new(alloc)?;
    buffer.fill(
        &Block::Section {
            order: Order::Little,
        },
        0,
    );
    Ok(buffer)
}

/// Passes on a source into a file of this name. All memory but that of single blocks is taken before the file is created.
fn pass_source<S: Source, L: Outlet>(
    alloc: Global,
    name: &Name,
    out: &Name,
    source: &mut S,
    outlet: &mut L,
) -> Result<Summary, Stop>
    requires name { length name.now ≤ 65535 }
    requires taken { Tells (S.taken source.old) [] }
    requires no_end { S.ends source.old ≡ 0 }
    requires no_fault { S.faults source.old ≡ 0 }
    requires file { L.has_file outlet.old ≡ false }
    ensures passed { FileSo L.stands_for outlet.old outlet.new name.now out.now (facts_by S.taken S.left S.ends S.faults source.new) result }
    ensures once { S.faults source.new ≤ 1 }
    ensures whole { whole_of (S.taken source.new) (S.left source.new) ≡ whole_of (S.taken source.old) (S.left source.old) }
    ensures closed { OnOk result (L.has_file outlet.new ≡ false) }
    ensures cause { FileCause (L.file_faults outlet.old) (L.file_faults outlet.new) result }
    ensures other { L.say_faults outlet.new ≡ L.say_faults outlet.old }
{
    let mut piece = empty_piece(alloc)?;
    let copied = name.copy()?;
    let mut passer = Passer::new(alloc, copied)?;
    let mut buffer = begun_buffer(alloc)?;
    let mut counts = Counts::none();
    outlet.create(out)?;
    let how = read_source(
        source,
        outlet,
        &mut buffer,
        &mut passer,
        &mut counts,
        &mut piece,
    )?;
    hand_over(outlet, &mut buffer)?;
    outlet.finish()?;
    Ok(Summary { how, counts })
}

/// The exit of a source that ended so, whose lines were written or not.
fn exit_of(how: How, written: Result<(), Failed>) -> u8
    ensures { IsExitOf how written result }
{
    match how {
        How::Clean => match written {
            Ok(()) => 0,
            Err(_) => UNWRITTEN,
        },
        _ => ENDED_EARLY,
    }
}

/// Writes the lines of a source that was passed on, and answers the exit.
fn say<K: Sink>(alloc: Global, name: &Name, summary: &Summary, note: &mut K) -> u8
    ensures { Concluded K.written K.faults name.now note.old note.new (Ok summary.now) result }
{
    let Ok(lines) = report_of(alloc, name, summary) else {
        return NO_MEMORY;
    };
    let written = write_text(note, lines.as_slice());
    exit_of(summary.how, written)
}

/// Writes the last lines of a run that ended so, and answers the exit.
fn conclude<K: Sink>(alloc: Global, name: &Name, end: Result<Summary, Stop>, note: &mut K) -> u8
    ensures { Concluded K.written K.faults name.now note.old note.new end result }
{
    match end {
        Ok(summary) => say(alloc, name, &summary, note),
        Err(stop) => stop.exit(),
    }
}

/// Passes on a pcapng source into one file: opens the source of this name, once, creates the file OUT, and writes a section
/// header, and then what the source has, in its order: a description for each interface, a block for each packet, and with
/// all their bytes the blocks of name resolution, decryption secrets and custom blocks that may be copied of its
/// little-endian sections. At most 2^62 bytes are read. No file may be current.
///
/// To `note` it writes `interfaces I`, `packets P`, `passed Q`, and behind these `source NAME: WORDS` where the source ended
/// otherwise than behind a whole block. Where it couldn't be opened, `source NAME: open failed` is the only line, and no
/// file is created. The first failing step decides the exit:
///
/// - 0 where the whole source was passed on and the lines were written,
/// - 2 where the source couldn't be opened or read, has a defect, is cut, describes more than 256 interfaces or is too long;
///   the file is finished, with all that stands before that,
/// - 3 exactly where a call on the file failed; the file has the first bytes of the text, and nothing more is done,
/// - 4 where the source was passed on and the lines couldn't be written whole,
/// - 5 where memory ran out; the file, where it was created, has the first bytes of the text, perhaps all, and nothing more
///   is done.
pub fn pass<O: Opener, L: Outlet, K: Sink>(
    alloc: Global,
    name: &Name,
    out: &Name,
    opener: &mut O,
    outlet: &mut L,
    note: &mut K,
) -> Reported<O::Source>
    requires name { length name.now ≤ 65535 }
    requires file { L.has_file outlet.old ≡ false }
    ensures exits { IsPassExit result.exit }
    ensures opened { Leads O.opened opener.old opener.new (name.now ∷ []) }
    ensures missing { IsNone result.source → O.faults opener.new ≡ one_higher (O.faults opener.old) }
    ensures there { IsSome result.source → O.faults opener.new ≡ O.faults opener.old }
    ensures content { IfSome (O.content opener.old name.now) (λ b. IfSome result.source (λ s. whole_of (O.Source.taken s) (O.Source.left s) ≡ Some b)) }
    ensures once { IfSome result.source (λ s. O.Source.faults s ≤ 1) }
    ensures unopened { IsNone result.source → (result.exit ≡ 2) × Wrote K.written K.faults note.old note.new (open_failed_line name.now) }
    ensures unmade { IsNone result.source → outlet.new ≡ outlet.old }
    ensures passed { IfSome result.source (λ s. PassedBy O.Source.Source L.Outlet K.Sink name.now out.now s outlet.old outlet.new note.old note.new result.exit) }
    ensures files { CountsWhere (result.exit ≡ 3) (L.file_faults outlet.old) (L.file_faults outlet.new) }
    ensures closed { ¬ (result.exit ≡ 3) → ¬ (result.exit ≡ 5) → L.has_file outlet.new ≡ false }
    ensures unsaid { L.say_faults outlet.new ≡ L.say_faults outlet.old }
{
    match opener.get(name) {
        Ok(mut source) => {
            let end = pass_source(alloc, name, out, &mut source, outlet);
            Reported {
                exit: conclude(alloc, name, end, note),
                source: Some(source),
            }
        }
        Err(_) => {
            write_open_failed(note, name);
            Reported {
                exit: ENDED_EARLY,
                source: None,
            }
        }
    }
}

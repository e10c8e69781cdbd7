//! A source, read to its end and passed on as it is read.
ghost use Rattle.std.specs.Prelude.{ℕ, List, Option, ◌≡◌, ◌≤◌, ◌<◌, ◌+◌, ◌^◌, [], true, None, length, IfOk, IfErr, IfSome, OnOk, OnErr};
ghost use Rattle.cap_base.specs.declared.limits.TheConstants.{MAX_INTERFACES};
ghost use Rattle.cap_outside.specs.Told.{Tells};
ghost use Rattle.mode_base.specs.Sources.{facts_by, whole_of};
ghost use Rattle.pass_blocks.specs.Passer as passers;
ghost use Rattle.pass_blocks.specs.Passer.{StandsFor, IsDrained, EndsAs, fed_count, waiting};
ghost use Rattle.pass_blocks.specs.Text.{file_text};
ghost use Rattle.pass_mode.specs.inner.Putting.{Puts};
ghost use Rattle.pass_mode.specs.inner.Running.{MovesOn, StopsSo, FedSo, FileCause, Took, TookUnfed, ReadSo, counts_of, fed_of};

use crate::counts::Counts;
use crate::putting::put_step;
use crate::stop::Stop;
use block_writer::OutputBuffer;
use cap_base::{How, NoMemory};
use cap_outside::{Outlet, Source};
use pass_blocks::{PassStep, Passer};

/// How many bytes a read asks for.
pub const PIECE_LEN: usize = 65_536;

/// The most bytes of one source.
const MOST_TAKEN: u64 = 1 << 62;

/// Why the bytes that were fed give nothing more.
#[derive(Clone, Copy, Debug)]
pub enum Fed {
    /// More bytes are needed.
    More,
    /// They have a defect.
    Defect,
    /// They describe one interface more than an output numbers.
    TooMany,
}

/// Why a step gives no block.
fn fed_of(step: &PassStep) -> Option<Fed>
    ensures { result ≡ fed_of step.now }
{
    match step {
        PassStep::Block(_) | PassStep::Passed(_) => None,
        PassStep::More => Some(Fed::More),
        PassStep::Bad { .. } => Some(Fed::Defect),
        PassStep::TooMany => Some(Fed::TooMany),
    }
}

/// Passes on one block of the bytes that were fed. It answers why there is none.
fn pass_step<L: Outlet>(
    outlet: &mut L,
    buffer: &mut OutputBuffer,
    passer: &mut Passer,
    counts: &mut Counts,
) -> Result<Option<Fed>, Stop>
    requires file { L.has_file outlet.old ≡ true }
    ensures moves { OnOk result (MovesOn L.stands_for outlet.old outlet.new buffer.old buffer.new passer.old passer.new counts.old counts.new) }
    ensures fed { IfOk result (λ r. IfSome r (λ fed. FedSo passer.new fed)) }
    ensures less { IfOk result (λ r. r ≡ None → waiting passer.new < waiting passer.old) }
    ensures stops { IfErr result (λ why. StopsSo L.stands_for outlet.old outlet.new buffer.old buffer.new passer.old passer.new why) }
    ensures same { fed_count passer.new ≡ fed_count passer.old }
    ensures most { passer.new.interfaces ≤ MAX_INTERFACES }
    ensures name { passer.new.pipe.name ≡ passer.old.pipe.name }
    ensures file { L.has_file outlet.new ≡ true }
    ensures cause { FileCause (L.file_faults outlet.old) (L.file_faults outlet.new) result }
    ensures other { L.say_faults outlet.new ≡ L.say_faults outlet.old }
{
    let step = passer.next()?;
    if let Some(fed) = fed_of(&step) {
        return Ok(Some(fed));
    }
    put_step(outlet, buffer, &step)?;
    let behind = counts.behind(&step)?;
    *counts = behind;
    passer.recycle(step);
    Ok(None)
}

/// Passes on all blocks of the bytes that were fed, and answers why there are no more.
fn pass_fed<L: Outlet>(
    outlet: &mut L,
    buffer: &mut OutputBuffer,
    passer: &mut Passer,
    counts: &mut Counts,
) -> Result<Fed, Stop>
    requires file { L.has_file outlet.old ≡ true }
    requires most { passer.old.interfaces ≤ MAX_INTERFACES }
    ensures moves { OnOk result (MovesOn L.stands_for outlet.old outlet.new buffer.old buffer.new passer.old passer.new counts.old counts.new) }
    ensures fed { IfOk result (λ fed. FedSo passer.new fed) }
    ensures stops { IfErr result (λ why. StopsSo L.stands_for outlet.old outlet.new buffer.old buffer.new passer.old passer.new why) }
    ensures same { fed_count passer.new ≡ fed_count passer.old }
    ensures most { passer.new.interfaces ≤ MAX_INTERFACES }
    ensures name { passer.new.pipe.name ≡ passer.old.pipe.name }
    ensures file { L.has_file outlet.new ≡ true }
    ensures cause { FileCause (L.file_faults outlet.old) (L.file_faults outlet.new) result }
    ensures other { L.say_faults outlet.new ≡ L.say_faults outlet.old }
{
    'steps: loop {
        if let Some(fed) = pass_step(outlet, buffer, passer, counts)? {
            return Ok(fed);
        }
    }
}

/// One read, whose bytes are fed. It answers how many, or nothing where the read failed.
fn read_piece<S: Source>(
    source: &mut S,
    piece: &mut [u8],
    passer: &mut Passer,
) -> Result<Option<usize>, NoMemory>
    requires some { 0 < length piece.old }
    requires short { length piece.old ≤ 65536 }
    requires fed { FedSo passer.old Fed.More }
    requires few { fed_count passer.old + length piece.old ≤ 2 ^ 62 }
    ensures took { IfOk result (λ count. Took (facts_by S.taken S.left S.ends S.faults source.old) (facts_by S.taken S.left S.ends S.faults source.new) passer.old passer.new count) }
    ensures count { IfOk result (λ count. IfSome count (λ n. n ≤ length piece.old)) }
    ensures unfed { OnErr result (TookUnfed (facts_by S.taken S.left S.ends S.faults source.old) (facts_by S.taken S.left S.ends S.faults source.new) passer.old passer.new) }
    ensures whole { whole_of (S.taken source.new) (S.left source.new) ≡ whole_of (S.taken source.old) (S.left source.old) }
{
    let Ok(count) = source.read(piece) else {
        return Ok(None);
    };
    if count == 0 {
        return Ok(Some(0));
    }
    passer.feed(&piece[..count])?;
    Ok(Some(count))
}

/// Reads a source until something ends it, and passes on its blocks as they come. It answers how the source ended.
pub fn read_source<S: Source, L: Outlet>(
    source: &mut S,
    outlet: &mut L,
    buffer: &mut OutputBuffer,
    passer: &mut Passer,
    counts: &mut Counts,
    piece: &mut [u8],
) -> Result<How, Stop>
    requires taken { Tells (S.taken source.old) [] }
    requires no_end { S.ends source.old ≡ 0 }
    requires no_fault { S.faults source.old ≡ 0 }
    requires piece { length piece.old ≡ 65536 }
    requires stands { StandsFor passer.old [] [] }
    requires fresh { passer.old ≡ passers.fresh passer.old.pipe.name }
    requires drained { IsDrained passer.old }
    requires begun { buffer.old ≡ file_text [] }
    requires counts { counts.old ≡ counts_of [] }
    requires file { L.has_file outlet.old ≡ true }
    ensures read { ReadSo L.stands_for outlet.old outlet.new buffer.new counts.new passer.old.pipe.name (facts_by S.taken S.left S.ends S.faults source.new) result }
    ensures once { S.faults source.new ≤ 1 }
    ensures whole { whole_of (S.taken source.new) (S.left source.new) ≡ whole_of (S.taken source.old) (S.left source.old) }
    ensures file { L.has_file outlet.new ≡ true }
    ensures cause { FileCause (L.file_faults outlet.old) (L.file_faults outlet.new) result }
    ensures other { L.say_faults outlet.new ≡ L.say_faults outlet.old }
{
    let mut left = MOST_TAKEN;
    'reads: while left > 0 {
        let most = left.min(PIECE_LEN as u64) as usize;
        let Some(count) = read_piece(source, &mut piece[..most], passer)? else {
            return Ok(How::ReadFault);
        };
        if count == 0 {
            return Ok(passer.finish());
        }
        match pass_fed(outlet, buffer, passer, counts)? {
            Fed::More => left -= count as u64,
            Fed::Defect => return Ok(passer.finish()),
            Fed::TooMany => return Ok(How::TooMany),
        }
    }
    Ok(How::TooLong)
}

ghost use Rattle.std.specs.Prelude.{◌≡◌, ◌≤◌, ◌<◌, ◌+◌, ◌^◌, ℕ, length, slice_index, IfOk, OnOk};
ghost use Rattle.std.specs.List.{sum};
ghost use Rattle.pcapng_grammar.specs.Defects.{block_in_order, blocks_in, first_defect, Answers};
ghost use Rattle.pcapng_grammar.specs.inner.Reading.{facts_with, Reads, IsDescribed};
ghost use Rattle.pcapng_grammar.specs.Files.{HasFacts};

use crate::blocks::{FileBlock, block_at};
use crate::facts::{CountedList, FileFacts, Totals};
use crate::fault::{CheckFault, What};
use crate::layout::MAX_FILE_LEN;
use crate::order::order_defect;
use cap_base::{NoMemory, bytes_from};
use std::alloc::Global;

/// The block that bytes begin with, and its length, or what is wrong with it. It stands at a place of the file, after so
/// many descriptions and so many statistics blocks.
#[tactic(auto, using(crate::proofs::Steps::known_block))]
fn block_in_order(
    descriptions: usize,
    statistics: usize,
    at: usize,
    text: &[u8],
) -> Result<(FileBlock, usize), What>
    ensures block { result ≡ block_in_order descriptions statistics at text.now }
    ensures within { IfOk result (λ b. (12 ≤ b.1) × (b.1 ≤ length text.now)) }
    ensures known { IfOk result (λ b. IsDescribed descriptions b.0) }
{
    match block_at(at, text) {
        Ok((block, len)) => match order_defect(descriptions, statistics, block) {
            Some(what) => Err(what),
            None => Ok((block, len)),
        },
        Err(what) => Err(what),
    }
}

/// Adds what a block says of its file.
fn add(facts: &mut FileFacts, block: FileBlock) -> Result<(), NoMemory>
    requires known { IsDescribed (length facts.old.packets) block }
    requires room { (k : ℕ) → slice_index facts.old.packets k + 1 < 2 ^ 64 }
    ensures { OnOk result (facts.new ≡ facts_with block facts.old) }
{
    match block {
        FileBlock::Section => Ok(()),
        FileBlock::Description => facts.packets.add_interface(),
        FileBlock::Packet { number } => {
            facts.packets.add_packet(number as usize);
            Ok(())
        }
        FileBlock::Statistics { counts, .. } => facts.counts.push(counts),
    }
}

/// Checks a whole output file: pcapng (draft-ietf-opsawg-pcapng, sections 3 and 4) as this program writes it. It answers
/// how many packets the file has of each interface, and what its statistics blocks say.
///
/// It holds the facts alone, and reads the bytes once.
///
/// - `Bad` exactly where the bytes aren't such a file: the first defect, and the place of the block in which it stands, in
///   bytes from the front of the file. A file of more than 2^32 bytes is `TooLong`.
/// - `NoMemory` where memory ran out.
pub fn check_file(alloc: Global, bytes: &[u8]) -> Result<FileFacts, CheckFault>
    ensures answers { Answers result (first_defect bytes.now) }
    ensures facts { IfOk result (λ f. HasFacts bytes.now f) }
    ensures each { IfOk result (λ f. length f.counts ≡ length f.packets) }
    ensures few { IfOk result (λ f. sum f.packets ≤ length bytes.now) }
{
    read_file(alloc, bytes)
}

/// The facts of all blocks, one block after another, or the first defect.
fn read_file(alloc: Global, bytes: &[u8]) -> Result<FileFacts, CheckFault>
    ensures { Reads result (blocks_in bytes.now) }
{
    if bytes.len() > MAX_FILE_LEN {
        return Err(CheckFault::Bad {
            what: What::TooLong,
            at: MAX_FILE_LEN as u64,
        });
    }
    let mut facts = FileFacts {
        packets: Totals::new(alloc),
        counts: CountedList::new(alloc),
    };
    let mut at = 0;
    'blocks: while at == 0 || at < bytes.len() {
        let rest = bytes_from(bytes, at);
        match block_in_order(facts.packets.len(), facts.counts.len(), at, rest) {
            Ok((block, len)) => {
                let Ok(()) = add(&mut facts, block) else {
                    return Err(CheckFault::NoMemory);
                };
                at += len;
            }
            Err(what) => {
                return Err(CheckFault::Bad {
                    what,
                    at: at as u64,
                });
            }
        }
    }
    if facts.counts.len() != facts.packets.len() {
        return Err(CheckFault::Bad {
            what: What::Missing,
            at: at as u64,
        });
    }
    Ok(facts)
}

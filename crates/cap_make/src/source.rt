//! The text of a source.
ghost use Rattle.std.specs.Prelude.{◌≡◌, ◌<◌, ◌≤◌, ◌%◌, ◌==◌, [], ◌++◌, length, IfOk, OnOk};
ghost use Rattle.pcapng_blocks.specs.Spelling.{spell, CanWrite};
ghost use Rattle.pcapng_blocks.specs.declared.block.Block.TheVariants.{Section};
ghost use Rattle.cap_base.specs.declared.numbers.Order.TheVariants.{Little};
ghost use Rattle.cap_base.specs.declared.limits.TheConstants.{MAX_SOURCES};
ghost use Rattle.cap_make.specs.Streams.{description, head_of, packet_text, stream};

use crate::generator::{after, packet_with};
use cap_base::{MAX_CAPTURED_LEN, NoMemory, Octets, Order, Packet};
use pcap_pipe::{classic_head, classic_unit};
use pcapng_blocks::{Block, block_len, write_piece};
use std::alloc::Global;

/// The link type of Ethernet.
const ETHERNET: u16 = 1;

/// An interface description without options (draft-ietf-opsawg-pcapng, section 4.2).
const DESCRIPTION: [u8; 20] = [
    1, 0, 0, 0, // block type
    20, 0, 0, 0, // block total length
    1, 0, // link type
    0, 0, // reserved
    0, 0, 4, 0, // snap length: 262,144
    20, 0, 0, 0, // block total length
];

/// Adds a block.
fn append_block(alloc: Global, text: &mut Octets, block: &Block) -> Result<(), NoMemory>
    requires { CanWrite block.now }
    ensures { OnOk result (text.new ≡ text.old ++ spell block.now) }
{
    let mut room = Vec::new(alloc);
    room.resize(block_len(block), 0)?;
    write_piece(block, 0, &mut room);
    text.append(&room)
}

/// What stands before the packets of an odd source: a section header and an interface.
#[tactic(auto, using(crate::proofs::Streams::description_is))]
fn pcapng_head(alloc: Global) -> Result<Octets, NoMemory>
    ensures { IfOk result (λ text. text ≡ spell (Section Little) ++ description) }
{
    let mut text = Octets::new(alloc);
    append_block(
        alloc,
        &mut text,
        &Block::Section {
            order: Order::Little,
        },
    )?;
    text.append(&DESCRIPTION)?;
    Ok(text)
}

/// Whether a source is written in classic pcap.
fn is_classic(which: u8) -> bool
    ensures { result ≡ (which % 2 == 0) }
{
    which % 2 == 0
}

/// What stands before the packets of a source.
fn head_of(alloc: Global, which: u8) -> Result<Octets, NoMemory>
    ensures { IfOk result (λ text. text ≡ head_of which) }
{
    if is_classic(which) {
        classic_head(alloc, ETHERNET, MAX_CAPTURED_LEN as u32)
    } else {
        pcapng_head(alloc)
    }
}

/// Adds a packet in the format of a source.
fn append_packet(
    alloc: Global,
    text: &mut Octets,
    which: u8,
    packet: Packet,
) -> Result<(), NoMemory>
    requires time { packet.time < 1000000 }
    requires body { length packet.body < 256 }
    requires notes { packet.notes ≡ [] }
    ensures { OnOk result (text.new ≡ text.old ++ packet_text which packet) }
{
    if is_classic(which) {
        let record = classic_unit(alloc, packet.time, packet.orig, packet.body.as_slice())?;
        text.append(record.as_slice())
    } else {
        append_block(alloc, text, &Block::Enhanced(packet))
    }
}

/// The text of source `which` of so many sources, which have `packets` packets together, of 0 to 255 bytes each. It takes
/// nothing from outside: the same numbers give the same text. `NoMemory` where memory runs out.
///
/// Packet `k`, from 0, belongs to source `k` modulo `sources`, has the time `k` microseconds, and its bytes count up from
/// `k`. Its length comes from the numbers that follow `start`.
#[tactic(auto, using(crate::proofs::Packets::number_none, crate::proofs::Packets::number_more, crate::proofs::Streams::stream_none, crate::proofs::Streams::stream_more, crate::proofs::Streams::stream_other))]
pub fn make_source(
    alloc: Global,
    start: u64,
    sources: u8,
    packets: u64,
    which: u8,
) -> Result<Octets, NoMemory>
    requires which { which < sources }
    requires sources { sources ≤ MAX_SOURCES }
    requires packets { packets ≤ 1000000 }
    ensures { IfOk result (λ text. text ≡ stream start sources packets which) }
{
    let mut text = head_of(alloc, which)?;
    let mut x = start;
    for number in 0..packets {
        x = after(x);
        if number % sources as u64 == which as u64 {
            append_packet(alloc, &mut text, which, packet_with(alloc, number, x)?)?;
        }
    }
    Ok(text)
}

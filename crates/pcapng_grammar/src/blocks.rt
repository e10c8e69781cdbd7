ghost use Rattle.std.specs.Prelude.{◌≡◌, true, ◌≤◌, ◌+◌, ◌-◌, ◌%◌, length, take, slice_range, IfOk};
ghost use Rattle.pcapng_grammar.specs.Blocks.{is_section_header_block, is_interface_description, is_enhanced_packet, is_interface_statistics, counted_in, if_valid, block_by_type, by_frame, block_at};
ghost use Rattle.pcapng_blocks.specs.Frames.{IsWithin, is_section_header, framed};
ghost use Rattle.std.specs.Int.{w32};
ghost use Rattle.cap_base.specs.Numbers.{field};
ghost use Rattle.cap_base.specs.declared.numbers.Order.TheVariants.{Little};

use crate::facts::Counted;
use crate::fault::What;
use crate::layout::{
    BYTE_ORDER_MAGIC, END_OF_OPTIONS, ENHANCED_PACKET_BLOCK, FRAME_LEN,
    INTERFACE_DESCRIPTION_BLOCK, INTERFACE_STATISTICS_BLOCK, ISB_IFDROP_HEADER, ISB_IFRECV_HEADER,
    ISB_USRDELIV_HEADER, LEAST_DESCRIPTION_LEN, LEAST_PACKET_LEN, SECTION_HEADER_BLOCK,
    SECTION_HEADER_LEN, STATISTICS_LEN, TRAILER_LEN,
};
use crate::options::{are_options, are_zero};
use cap_base::{Code, MAX_CAPTURED_LEN, Order, get_u16, get_u32, get_u64, padded};
use pcapng_blocks::{Frame, frame_of, is_section_header};

/// A block of an output file (draft-ietf-opsawg-pcapng, section 4), as far as the file's grammar goes.
#[derive(Clone, Copy, Debug, PartialEq, Eq)]
pub enum FileBlock {
    /// A section header block (section 4.1).
    Section,
    /// An interface description block (section 4.2).
    Description,
    /// An enhanced packet block (section 4.3) of the interface with a number, from 0.
    Packet { number: u32 },
    /// An interface statistics block (section 4.6) of the interface with a number, from 0.
    Statistics { number: u32, counts: Counted },
}

/// The first bytes.
fn first_bytes(text: &[u8], len: usize) -> &[u8]
    requires { len ≤ length text.now }
    ensures { result.now ≡ take len text.now }
{
    &text[..len]
}

/// The bytes of a block from a place to its second length.
fn bytes_between(text: &[u8], at: usize) -> &[u8]
    requires { at + 4 ≤ length text.now }
    ensures { result.now ≡ slice_range text.now at (length text.now - 4) }
{
    &text[at..text.len() - TRAILER_LEN]
}

/// Whether a block is the one section header that is written (draft-ietf-opsawg-pcapng, section 4.1):
///
/// ```text
///    8   byte-order magic u32
///   12   major version u16: 1
///   14   minor version u16: 0
///   16   section length i64: -1, not given
///   24   block total length
/// ```
fn is_section_header_block(text: &[u8]) -> bool
    ensures { result ≡ is_section_header_block text.now }
{
    text.len() == SECTION_HEADER_LEN
        && get_u32(Order::Little, text, 8) == BYTE_ORDER_MAGIC
        && get_u16(Order::Little, text, 12) == 1
        && get_u16(Order::Little, text, 14) == 0
        && get_u64(Order::Little, text, 16) == u64::MAX
}

/// Whether an interface description (section 4.2) is well formed:
///
/// ```text
///    8   link type u16
///   10   reserved u16: 0
///   12   snap length u32
///   16   options
/// ```
fn is_interface_description(text: &[u8]) -> bool
    ensures { result ≡ is_interface_description text.now }
{
    if text.len() < LEAST_DESCRIPTION_LEN {
        return false;
    }
    get_u16(Order::Little, text, 10) == 0 && are_options(bytes_between(text, 16))
}

/// Whether an enhanced packet (section 4.3) is well formed:
///
/// ```text
///    8   interface u32
///   12   timestamp: the upper u32, then the lower u32
///   20   captured length u32
///   24   original length u32
///   28   packet data, with zeros to a multiple of 4
///        options
/// ```
fn is_enhanced_packet(text: &[u8]) -> bool
    ensures { result ≡ is_enhanced_packet text.now }
{
    if text.len() < LEAST_PACKET_LEN {
        return false;
    }
    let captured = get_u32(Order::Little, text, 20) as usize;
    if captured > MAX_CAPTURED_LEN {
        return false;
    }
    let len = padded(captured);
    if text.len() < LEAST_PACKET_LEN + len {
        return false;
    }
    are_zero(text, 28 + captured, 28 + len) && are_options(bytes_between(text, 28 + len))
}

/// Whether interface statistics (section 4.6) have the three counts, in their order, and nothing else:
///
/// ```text
///    8   interface u32
///   12   timestamp: the upper u32, then the lower u32
///   20   isb_ifrecv, u64
///   32   isb_ifdrop, u64
///   44   isb_usrdeliv, u64
///   56   opt_endofopt
/// ```
fn is_interface_statistics(text: &[u8]) -> bool
    ensures { result ≡ is_interface_statistics text.now }
{
    text.len() == STATISTICS_LEN
        && get_u32(Order::Little, text, 20) == ISB_IFRECV_HEADER
        && get_u32(Order::Little, text, 32) == ISB_IFDROP_HEADER
        && get_u32(Order::Little, text, 44) == ISB_USRDELIV_HEADER
        && get_u32(Order::Little, text, 56) == END_OF_OPTIONS
}

/// The counts of interface statistics.
fn counted_in(text: &[u8]) -> Counted
    requires { 56 ≤ length text.now }
    ensures { result ≡ counted_in text.now }
{
    Counted {
        recv: get_u64(Order::Little, text, 24),
        drop: get_u64(Order::Little, text, 36),
        delivered: get_u64(Order::Little, text, 48),
    }
}

/// A block, where its body is valid.
fn if_valid(valid: bool, block: FileBlock) -> Result<FileBlock, What>
    ensures { result ≡ if_valid valid block }
{
    if valid { Ok(block) } else { Err(What::Body) }
}

/// The block of interface statistics.
fn statistics(text: &[u8]) -> Result<FileBlock, What>
    ensures { result ≡ if_valid (is_interface_statistics text.now) (FileBlock.Statistics (field Little w32 text.now 8) (counted_in text.now)) }
{
    if !is_interface_statistics(text) {
        return Err(What::Body);
    }
    Ok(FileBlock::Statistics {
        number: get_u32(Order::Little, text, 8),
        counts: counted_in(text),
    })
}

/// The block of which these are all bytes, by its type.
#[tactic(auto, unfolding(crate::specs::Blocks::block_by_type))]
fn block_by_type(text: &[u8]) -> Result<FileBlock, What>
    requires { 12 ≤ length text.now }
    ensures { result ≡ block_by_type text.now }
{
    let kind = get_u32(Order::Little, text, 0);
    if kind == SECTION_HEADER_BLOCK {
        return if_valid(is_section_header_block(text), FileBlock::Section);
    }
    if kind == INTERFACE_DESCRIPTION_BLOCK {
        return if_valid(is_interface_description(text), FileBlock::Description);
    }
    if kind == ENHANCED_PACKET_BLOCK {
        let number = get_u32(Order::Little, text, 8);
        return if_valid(is_enhanced_packet(text), FileBlock::Packet { number });
    }
    if kind == INTERFACE_STATISTICS_BLOCK {
        return statistics(text);
    }
    Err(What::Kind)
}

/// The block that a frame holds, and its length, or what is wrong with the frame or with the body.
fn by_frame(frame: Frame, text: &[u8]) -> Result<(FileBlock, usize), What>
    requires { IsWithin (length text.now) frame }
    ensures block { result ≡ by_frame frame text.now }
    ensures within { IfOk result (λ b. (12 ≤ b.1) × (b.1 ≤ length text.now)) }
{
    match frame {
        Frame::Short => Err(What::Short),
        Frame::Wrong(Code::Trailer) => Err(What::Trailer),
        Frame::Wrong(_) => Err(What::Length),
        Frame::Whole(_, len) => match block_by_type(first_bytes(text, len)) {
            Ok(block) => Ok((block, len)),
            Err(what) => Err(what),
        },
    }
}

/// The block that bytes begin with, and its length. A section header among them is little-endian.
#[tactic(auto, using(crate::proofs::Steps::little_frame))]
fn little_block(text: &[u8]) -> Result<(FileBlock, usize), What>
    requires least { 12 ≤ length text.now }
    requires little { is_section_header text.now ≡ true → field Little w32 text.now 8 ≡ 0x1A2B3C4D }
    ensures block { result ≡ by_frame (framed Little text.now) text.now }
    ensures within { IfOk result (λ b. (12 ≤ b.1) × (b.1 ≤ length text.now)) }
{
    by_frame(frame_of(Order::Little, text), text)
}

/// The block that bytes begin with, which stands at a place of the file, and its length.
#[tactic(auto, unfolding(crate::specs::Blocks::block_at))]
pub fn block_at(at: usize, text: &[u8]) -> Result<(FileBlock, usize), What>
    ensures block { result ≡ block_at at text.now }
    ensures within { IfOk result (λ b. (12 ≤ b.1) × (b.1 ≤ length text.now)) }
{
    if text.len() < FRAME_LEN {
        return Err(What::Short);
    }
    if at == 0 {
        if !is_section_header(text) {
            return Err(What::NoSection);
        }
        if get_u32(Order::Little, text, 8) != BYTE_ORDER_MAGIC {
            return Err(What::Order);
        }
        return little_block(text);
    }
    if is_section_header(text) {
        return Err(What::SecondSection);
    }
    little_block(text)
}

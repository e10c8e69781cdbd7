ghost use Rattle.std.specs.Prelude.{◌≡◌, ◌≤◌, length};
ghost use Rattle.std.specs.Int.{w32};
ghost use Rattle.cap_base.specs.Numbers.{field};
ghost use Rattle.cap_base.specs.declared.numbers.Order.TheVariants.{Little};
ghost use Rattle.ring_join.specs.inner.Walking.{IsFront, type_by};

use cap_base::{Order, get_u32};

/// Interface description block (draft-ietf-opsawg-pcapng, section 4.2).
const INTERFACE_DESCRIPTION_BLOCK: u32 = 1;

/// Interface statistics block, section 4.6.
const INTERFACE_STATISTICS_BLOCK: u32 = 5;

/// Enhanced packet block, section 4.3.
const ENHANCED_PACKET_BLOCK: u32 = 6;

/// What a block of a file is.
#[derive(Clone, Copy, Debug, PartialEq, Eq)]
pub enum BlockKind {
    /// The section header.
    Section,
    /// An interface description.
    Description,
    /// A packet.
    Packet,
    /// Interface statistics.
    Statistics,
}

/// What a block is, by the number of its type. In a file none but these four stand.
fn kind_by(number: u32) -> BlockKind
    ensures { result ≡ type_by number }
{
    if number == INTERFACE_DESCRIPTION_BLOCK {
        return BlockKind::Description;
    }
    if number == ENHANCED_PACKET_BLOCK {
        return BlockKind::Packet;
    }
    if number == INTERFACE_STATISTICS_BLOCK {
        return BlockKind::Statistics;
    }
    BlockKind::Section
}

/// What the block is that the rest of a file begins with, and its length.
pub fn front_of(rest: &[u8]) -> (BlockKind, usize)
    requires { 8 ≤ length rest.now }
    ensures { IsFront rest.now result.0 result.1 }
{
    let kind = kind_by(get_u32(Order::Little, rest, 0));
    let len = get_u32(Order::Little, rest, 4) as usize;
    (kind, len)
}

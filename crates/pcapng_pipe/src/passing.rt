//! Blocks that are passed on as they stand.
ghost use Rattle.std.specs.Prelude.{◌≡◌, ◌≤◌, ◌-◌, ℕ, true, false, length, slice_range, IfSome, IfNone};
ghost use Rattle.std.specs.Int.{w32};
ghost use Rattle.cap_base.specs.Numbers.{field};
ghost use Rattle.cap_base.specs.declared.numbers.Order.TheVariants.{Little};
ghost use Rattle.pcapng_blocks.specs.Reading.{IsPassedOver};
ghost use Rattle.pcapng_blocks.specs.Spelling.{block_text};
ghost use Rattle.pcapng_pipe.specs.Pieces.{is_passed_type};
ghost use Rattle.pcapng_pipe.specs.inner.Passed.{IsFramed};

use cap_base::{Order, get_u32};
use pcapng_blocks::passed_over;

// The parts of a block (draft-ietf-opsawg-pcapng, section 3.1):
//
//    0   block type u32, block total length u32
//    8   block body
//        block total length u32

const TYPE_AT: usize = 0;

const BODY_AT: usize = 8;

const TRAILER_LEN: usize = 4;

/// The type of a name resolution block (draft-ietf-opsawg-pcapng, section 4.5).
pub const NAME_RESOLUTION_BLOCK: u32 = 4;

/// The type of a decryption secrets block (section 4.7).
pub const DECRYPTION_SECRETS_BLOCK: u32 = 0x0A;

/// The type of a custom block that may be copied (section 4.8).
pub const CUSTOM_BLOCK: u32 = 0x0BAD;

/// Whether blocks of a type are passed on.
fn is_passed_type(kind: u32) -> bool
    ensures { result ≡ is_passed_type kind }
{
    kind == NAME_RESOLUTION_BLOCK || kind == DECRYPTION_SECRETS_BLOCK || kind == CUSTOM_BLOCK
}

/// The type and the length of the block that bytes of a little-endian section begin with, where it is passed on.
pub fn passed_at(text: &[u8]) -> Option<(u32, usize)>
    ensures over { IfSome result (λ found. IsPassedOver Little text.now found.1) }
    ensures kind { IfSome result (λ found. found.0 ≡ field Little w32 text.now 0) }
    ensures passed { IfSome result (λ found. is_passed_type found.0 ≡ true) }
    ensures none { IfNone result ((len : ℕ) → IsPassedOver Little text.now len → is_passed_type (field Little w32 text.now 0) ≡ false) }
{
    if text.len() < BODY_AT {
        return None;
    }
    let kind = get_u32(Order::Little, text, TYPE_AT);
    if !is_passed_type(kind) {
        return None;
    }
    let len = passed_over(Order::Little, text)?;
    Some((kind, len))
}

/// What stands between the lengths of a little-endian block.
pub fn body_between(block: &[u8]) -> &[u8]
    requires { IsFramed block.now }
    ensures value { result.now ≡ slice_range block.now 8 (length block.now - 4) }
    ensures same { block.now ≡ block_text (field Little w32 block.now 0) result.now }
{
    &block[BODY_AT..block.len() - TRAILER_LEN]
}

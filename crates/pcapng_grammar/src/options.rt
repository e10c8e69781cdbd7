ghost use Rattle.std.specs.Prelude.{◌≡◌, ◌==◌, ◌%◌, ◌≤◌, length, slice_range};
ghost use Rattle.std.specs.List.{list_all};
ghost use Rattle.pcapng_grammar.specs.Options.{are_options, are_zero, is_end_mark};

use crate::layout::{END_OF_OPTIONS, OPTION_HEADER_LEN};
use cap_base::{Order, bytes_from, get_u32, padded};
use pcapng_options::{Front, option_front_of};

/// Whether all bytes from a place to another are zero, as padding is.
pub fn are_zero(bytes: &[u8], from: usize, to: usize) -> bool
    requires from { from ≤ to }
    requires to { to ≤ length bytes.now }
    ensures { result ≡ are_zero (slice_range bytes.now from to) }
{
    bytes[from..to].iter().all(|byte| *byte == 0)
}

/// Whether the bytes are `opt_endofopt` and nothing else.
fn is_end_mark(bytes: &[u8]) -> bool
    ensures { result ≡ is_end_mark bytes.now }
{
    bytes.len() == OPTION_HEADER_LEN && get_u32(Order::Little, bytes, 0) == END_OF_OPTIONS
}

/// Whether the bytes are a list of options (draft-ietf-opsawg-pcapng, section 3.5) as it stands in an output file: no byte,
/// or whole options with zero padding and then one `opt_endofopt`.
pub fn are_options(bytes: &[u8]) -> bool
    ensures { result ≡ are_options bytes.now }
{
    if bytes.len() == 0 {
        return true;
    }
    let mut at = 0;
    'options: loop {
        let rest = bytes_from(bytes, at);
        match option_front_of(Order::Little, rest) {
            Front::Ended => return is_end_mark(rest),
            Front::Over => return false,
            Front::Whole(_, len) => {
                let whole = OPTION_HEADER_LEN + padded(len);
                if !are_zero(rest, OPTION_HEADER_LEN + len, whole) {
                    return false;
                }
                at += whole;
            }
        }
    }
}

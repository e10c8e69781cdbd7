ghost use Rattle.std.specs.Prelude.{◌≡◌};
ghost use Rattle.pcapng_options.specs.Reading.{option_front, LiesWithin};

use crate::layout::{LENGTH_AT, OPT_ENDOFOPT, OPTION_HEADER_LEN};
use cap_base::{Order, get_u16, padded};

/// What stands at the front of a list of options (draft-ietf-opsawg-pcapng, section 3.5).
#[derive(Clone, Copy, Debug, PartialEq, Eq)]
pub enum Front {
    /// The end: fewer bytes than an option's type and length have, or opt_endofopt, whatever its length says.
    Ended,
    /// An option whose padded value runs over the end.
    Over,
    /// A whole option: its type, and the length of its value without padding, in bytes.
    Whole(u16, usize),
}

/// What stands at the front of a list of options whose numbers stand in an order.
#[tactic(auto, unfolding(crate::specs::Reading::option_front))]
pub fn option_front_of(order: Order, text: &[u8]) -> Front
    ensures front { result ≡ option_front order text.now }
    ensures within { LiesWithin text.now result }
{
    if text.len() < OPTION_HEADER_LEN {
        return Front::Ended;
    }
    let code = get_u16(order, text, 0);
    if code == OPT_ENDOFOPT {
        return Front::Ended;
    }
    let len = get_u16(order, text, LENGTH_AT) as usize;
    if text.len() < OPTION_HEADER_LEN + padded(len) {
        Front::Over
    } else {
        Front::Whole(code, len)
    }
}

ghost use Rattle.std.specs.Prelude.{◌≡◌, ◌≤◌, ◌+◌, ◌%◌, length, take, drop, IfOk, OnOk, OnErr, ◌++◌, [], ◌∷◌, All};
ghost use Rattle.pcapng_options.specs.Reading.{options_in, option_of, Reads};

use crate::front::{Front, option_front_of};
use crate::layout::OPTION_HEADER_LEN;
use cap_base::{NoMemory, Note, Notes, Octets, Order, bytes_at, bytes_from, padded};
use std::alloc::Global;

/// Why `read_notes` doesn't read a list of options.
#[derive(Clone, Copy, Debug, PartialEq, Eq)]
pub enum NotesFault {
    /// The padded value of the option that begins at the place `at`, counted in bytes from 0, runs over the end.
    Bad { at: usize },
    /// Memory ran out.
    NoMemory,
}

/// The option at the front of the bytes, of which the code and the length of the value are known.
fn option_at(alloc: Global, code: u16, len: usize, text: &[u8]) -> Result<Note, NoMemory>
    requires { 4 + len ≤ length text.now }
    ensures value { IfOk result (λ n. n ≡ option_of code len text.now) }
    ensures len { IfOk result (λ n. length n.body ≡ len) }
{
    let body = Octets::from_slice(alloc, bytes_at(text, OPTION_HEADER_LEN, len))?;
    Ok(Note { code, body })
}

/// Reads a list of options (draft-ietf-opsawg-pcapng, section 3.5) to its end, or to opt_endofopt; what stands behind that
/// is passed over. Types and lengths are numbers in the given order; values are given as they stand, without padding. The
/// length of the bytes is a multiple of 4.
///
/// `Bad` comes exactly where an option runs over the end, and names the first. A list without options takes no memory.
pub fn read_notes(alloc: Global, order: Order, bytes: &[u8]) -> Result<Notes, NotesFault>
    requires { length bytes.now % 4 ≡ 0 }
    ensures reads { Reads result (options_in order bytes.now) }
    ensures short { IfOk result (λ ns. All (λ n. length n.body ≤ 65535) ns) }
{
    let mut notes = Notes::new(alloc);
    let mut at = 0;
    'options: loop {
        let rest = bytes_from(bytes, at);
        match option_front_of(order, rest) {
            Front::Ended => return Ok(notes),
            Front::Over => return Err(NotesFault::Bad { at }),
            Front::Whole(code, len) => {
                let Ok(note) = option_at(alloc, code, len, rest) else {
                    return Err(NotesFault::NoMemory);
                };
                let Ok(()) = notes.push(note) else {
                    return Err(NotesFault::NoMemory);
                };
                at += OPTION_HEADER_LEN + padded(len);
            }
        }
    }
}

ghost use Rattle.std.specs.Prelude.{◌≡◌, ◌≤◌, ◌<◌, ◌++◌, length, replicate, All, IfOk, OnOk};
ghost use Rattle.pcapng_options.specs.Spelling.{option, options_text, padded_bytes};

use cap_base::{NoMemory, Note, Notes, Octets};
use std::alloc::Global;

/// The end mark: opt_endofopt, with length 0 (draft-ietf-opsawg-pcapng, section 3.5.1).
const END_MARK: [u8; 4] = [0; 4];

/// Adds so many zeros.
fn append_zeros(text: &mut Octets, count: usize) -> Result<(), NoMemory>
    requires { count < 4 }
    ensures { OnOk result (text.new ≡ text.old ++ replicate count 0) }
{
    match count {
        0 => Ok(()),
        1 => text.append(&[0]),
        2 => text.append(&[0, 0]),
        _ => text.append(&[0, 0, 0]),
    }
}

/// Adds an option: its type, the length of its value, and the padded value.
#[tactic(auto, unfolding(crate::specs::Spelling::option, crate::specs::Spelling::padded_bytes, crate::specs::Spelling::u16))]
fn append_option(text: &mut Octets, note: &Note) -> Result<(), NoMemory>
    requires { length note.now.body ≤ 65535 }
    ensures { OnOk result (text.new ≡ text.old ++ option note.now.code note.now.body) }
{
    let len = note.body.len();
    text.append(&note.code.to_le_bytes())?;
    text.append(&(len as u16).to_le_bytes())?;
    text.append(note.body.as_slice())?;
    append_zeros(text, (4 - len % 4) % 4)
}

/// Spells options (draft-ietf-opsawg-pcapng, section 3.5): little-endian, each value padded with zeros to a multiple of 4
/// bytes, and opt_endofopt behind them; nothing for the empty list. A value has at most 65,535 bytes, since its length is
/// a number of two bytes.
///
/// Only want of memory is an error.
pub fn write_notes(alloc: Global, notes: &Notes) -> Result<Octets, NoMemory>
    requires { All (λ n. length n.body ≤ 65535) notes.now }
    ensures { IfOk result (λ text. text ≡ options_text notes.now) }
{
    let mut text = Octets::new(alloc);
    if notes.len() == 0 {
        return Ok(text);
    }
    for note in notes.as_slice() {
        append_option(&mut text, note)?;
    }
    text.append(&END_MARK)?;
    Ok(text)
}

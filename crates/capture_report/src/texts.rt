ghost use Rattle.std.specs.Prelude.{◌≡◌, ◌++◌, IfOk, map, take};
ghost use Rattle.capture_report.specs.Messages.{shown_byte, shown_name};

use cap_base::{NoMemory, Octets};
use std::alloc::Global;

/// The most bytes of an interface's name that are said.
const MOST_SHOWN: usize = 65_000;

/// The bytes of a text.
pub fn octets_of(alloc: Global, text: &str) -> Result<Octets, NoMemory>
    ensures { IfOk result (λ o. o ≡ text.now) }
{
    let mut octets = Octets::new(alloc);
    octets.append(text.as_bytes())?;
    Ok(octets)
}

/// Three texts, one after another.
pub fn joined(alloc: Global, first: &str, second: &[u8], third: &str) -> Result<Octets, NoMemory>
    ensures { IfOk result (λ o. o ≡ first.now ++ (second.now ++ third.now)) }
{
    let mut text = octets_of(alloc, first)?;
    text.append(second)?;
    text.append(third.as_bytes())?;
    Ok(text)
}

/// A question mark for a zero.
fn byte_shown(byte: u8) -> u8
    ensures { result ≡ shown_byte byte }
{
    if byte == 0 { b'?' } else { byte }
}

/// The bytes that a message has room for.
fn with_room(bytes: &[u8]) -> &[u8]
    ensures { result.now ≡ take 65000 bytes.now }
{
    &bytes[..bytes.len().min(MOST_SHOWN)]
}

/// Bytes with question marks for zeros.
fn bytes_shown(alloc: Global, bytes: &[u8]) -> Result<Octets, NoMemory>
    ensures { IfOk result (λ o. o ≡ map shown_byte bytes.now) }
{
    let mut shown = Octets::new(alloc);
    'bytes: for byte in bytes {
        shown.push(byte_shown(*byte))?;
    }
    Ok(shown)
}

/// An interface's name, as far as a message has room for it.
#[tactic(auto, unfolding(crate::specs::Messages::shown_name))]
pub fn name_shown(alloc: Global, name: &Octets) -> Result<Octets, NoMemory>
    ensures { IfOk result (λ o. o ≡ shown_name name.now) }
{
    bytes_shown(alloc, with_room(name.as_slice()))
}

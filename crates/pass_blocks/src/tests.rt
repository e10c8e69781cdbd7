ghost use Rattle.pass_blocks.specs.Passer.{IsFitStep};

use crate::{PassStep, Passer};
use cap_base::{How, Name, Octets};
use pcapng_blocks::{block_len, write_piece};
use std::alloc::Global;
use std::test::Fail;

const SECTION: [u8; 28] = [
    0x0A, 0x0D, 0x0D, 0x0A, 28, 0, 0, 0, 0x4D, 0x3C, 0x2B, 0x1A, 1, 0, 0, 0, 0xFF, 0xFF, 0xFF,
    0xFF, 0xFF, 0xFF, 0xFF, 0xFF, 28, 0, 0, 0,
];

/// Link type 1, snap length 262,144.
const INTERFACE: [u8; 20] = [1, 0, 0, 0, 20, 0, 0, 0, 1, 0, 0, 0, 0, 0, 4, 0, 20, 0, 0, 0];

/// The same with the name `b` and microseconds, as it is written.
const NAMED: [u8; 40] = [
    1, 0, 0, 0, 40, 0, 0, 0, 1, 0, 0, 0, 0, 0, 4, 0, 2, 0, 1, 0, b'b', 0, 0, 0, 9, 0, 1, 0, 6, 0,
    0, 0, 0, 0, 0, 0, 40, 0, 0, 0,
];

/// A block of name resolution without records, with 4 bytes.
const NAMES: [u8; 16] = [4, 0, 0, 0, 16, 0, 0, 0, 0, 0, 0, 0, 16, 0, 0, 0];

/// A custom block that may not be copied.
const PRIVATE: [u8; 16] = [0xAD, 0x0B, 0, 0x40, 16, 0, 0, 0, 0, 0, 0, 0, 16, 0, 0, 0];

/// Interface 0, time 1,000,002, 4 bytes of 60.
const PACKET: [u8; 36] = [
    6, 0, 0, 0, 36, 0, 0, 0, 0, 0, 0, 0, 0, 0, 0, 0, 0x42, 0x42, 0x0F, 0, 4, 0, 0, 0, 60, 0, 0, 0,
    0xDE, 0xAD, 0xBE, 0xEF, 36, 0, 0, 0,
];

fn joined(alloc: Global, parts: &[&[u8]]) -> Result<Vec<u8>, Fail> {
    let mut text = Vec::new(alloc);
    for part in parts {
        text.extend_from_slice(part)?;
    }
    Ok(text)
}

fn passer_of(alloc: Global, text: &[u8]) -> Result<Passer, Fail> {
    let mut passer = Passer::new(alloc, Name::from_text(alloc, "b")?)?;
    if passer.fed() > 1_000_000 || text.len() > 1_000_000 {
        return Err("a text of more than a million bytes".into());
    }
    passer.feed(text)?;
    Ok(passer)
}

/// What stands in the file for a step, and a letter for the step.
fn put_step(alloc: Global, step: &PassStep, text: &mut Octets) -> Result<char, Fail>
    requires { IsFitStep step.now }
{
    match step {
        PassStep::Block(block) => {
            let mut bytes = Vec::new(alloc);
            bytes.resize(64, 0)?;
            let len = write_piece(block, 0, &mut bytes);
            if len == block_len(block) {
                bytes.truncate(len);
                text.append(bytes.as_slice())?;
            }
            Ok('b')
        }
        PassStep::Passed(bytes) => {
            text.append(bytes.as_slice())?;
            Ok('p')
        }
        PassStep::More => Ok('m'),
        PassStep::Bad { .. } => Ok('x'),
        PassStep::TooMany => Ok('t'),
    }
}

/// The next step, which is put into the file and given back: a letter for it, and how the text ends where it has no more.
fn take_step(
    alloc: Global,
    passer: &mut Passer,
    text: &mut Octets,
) -> Result<(char, Option<How>), Fail> {
    let step = passer.next()?;
    let letter = put_step(alloc, &step, text)?;
    let how = match &step {
        PassStep::More => Some(passer.finish()),
        _ => None,
    };
    passer.recycle(step);
    Ok((letter, how))
}

/// The steps of a text, a letter each, what they put into the file, and how the text ends.
fn steps(
    alloc: Global,
    passer: &mut Passer,
    text: &mut Octets,
) -> Result<(String, Option<How>), Fail> {
    let mut letters = String::new(alloc);
    for _ in 0..300u16 {
        let (letter, how) = take_step(alloc, passer, text)?;
        letters.push(letter)?;
        if how.is_some() {
            return Ok((letters, how));
        }
    }
    Ok((letters, None))
}

#[test]
fn blocks_are_passed_on_in_their_places(rt: HostRuntime) -> Result<(), Fail> {
    let alloc = rt.alloc();
    let source = joined(alloc, &[&SECTION, &INTERFACE, &NAMES, &PRIVATE, &PACKET])?;
    let mut passer = passer_of(alloc, source.as_slice())?;
    let mut text = Octets::new(alloc);
    let (letters, how) = steps(alloc, &mut passer, &mut text)?;
    assert_eq!(rt; letters.as_str(), "bpbm");
    assert_eq!(rt; how, Some(How::Clean));
    let file = joined(alloc, &[&NAMED, &NAMES, &PACKET])?;
    assert_eq!(rt; text.as_slice(), file.as_slice());
    Ok(())
}

ghost use Rattle.std.specs.Prelude.{◌≡◌, ◌≤◌, ◌<◌, ◌++◌, length, IfOk};
ghost use Rattle.std.specs.Prelude.{true, false};
ghost use Rattle.pcapng_blocks.specs.Frames.{is_section_header};
ghost use Rattle.source_reader.specs.inner.Stages.{Begins};

use cap_base::{Name, NoMemory, Octets};
use input_buffer::MAX_UNREAD_LEN;
use pcap_pipe::PcapPipe;
use pcapng_blocks::is_section_header;
use pcapng_pipe::PcapngPipe;
use std::alloc::Global;

/// The bytes that choose the format.
pub const MAGIC_LEN: usize = 4;

/// Where a reader stands.
#[derive(Drop)]
pub enum Stage {
    /// Before the format is known, with the bytes that were fed.
    Choosing { name: Name, head: Octets },
    /// In classic pcap.
    Classic(PcapPipe),
    /// In pcapng.
    Pcapng(PcapngPipe),
}

/// A pipe of classic pcap that was fed these bytes.
fn classic(alloc: Global, name: &Name, text: &[u8]) -> Result<Stage, NoMemory>
    requires name { length name.now ≤ 65535 }
    requires len { length text.now ≤ MAX_UNREAD_LEN }
    requires long { 4 ≤ length text.now }
    requires header { is_section_header text.now ≡ false }
    ensures { IfOk result (λ s. Begins name.now text.now s) }
{
    let mut pipe = PcapPipe::new(alloc, name.copy()?)?;
    pipe.feed(text)?;
    Ok(Stage::Classic(pipe))
}

/// A pipe of pcapng that was fed these bytes.
fn pcapng(alloc: Global, name: &Name, text: &[u8]) -> Result<Stage, NoMemory>
    requires name { length name.now ≤ 65535 }
    requires len { length text.now ≤ MAX_UNREAD_LEN }
    requires long { 4 ≤ length text.now }
    requires header { is_section_header text.now ≡ true }
    ensures { IfOk result (λ s. Begins name.now text.now s) }
{
    let mut pipe = PcapngPipe::new(alloc, name.copy()?)?;
    pipe.feed(text)?;
    Ok(Stage::Pcapng(pipe))
}

/// The stage behind the first bytes that are fed: all of them, up to now.
pub fn begin(alloc: Global, name: &Name, head: &Octets, piece: &[u8]) -> Result<Stage, NoMemory>
    requires name { length name.now ≤ 65535 }
    requires len { length (head.now ++ piece.now) ≤ MAX_UNREAD_LEN }
    ensures { IfOk result (λ s. Begins name.now (head.now ++ piece.now) s) }
{
    let mut text = head.copy()?;
    text.append(piece)?;
    if text.len() < MAGIC_LEN {
        return Ok(Stage::Choosing {
            name: name.copy()?,
            head: text,
        });
    }
    if is_section_header(text.as_slice()) {
        pcapng(alloc, name, text.as_slice())
    } else {
        classic(alloc, name, text.as_slice())
    }
}

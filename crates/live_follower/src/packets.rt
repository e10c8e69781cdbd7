ghost use Rattle.std.specs.Prelude.{◌≡◌, [], IfOk, OnErr};
ghost use Rattle.pcapng_pipe.specs.Pipe.{fed_count};
ghost use Rattle.live_follower.specs.inner.Seeking.{GivesPackets, FoundIs, found_packets};

use crate::found::Found;
use cap_base::{NoMemory, Step};
use pcapng_pipe::PcapngPipe;

/// The next packet of the bytes that were read. Interfaces are passed over.
pub(crate) fn next_packet(pipe: &mut PcapngPipe) -> Result<Found, NoMemory>
    ensures gives { IfOk result (λ found. GivesPackets pipe.old pipe.new (found_packets found)) }
    ensures found { IfOk result (λ found. FoundIs pipe.new found) }
    ensures same { fed_count pipe.new ≡ fed_count pipe.old }
    ensures err { OnErr result (GivesPackets pipe.old pipe.new []) }
{
    'steps: loop {
        match pipe.next()? {
            Step::Iface(_) => {}
            Step::Packet(packet) => return Ok(Found::Packet(packet)),
            Step::More => return Ok(Found::More),
            Step::Bad { at, .. } => return Ok(Found::Bad(at)),
        }
    }
}

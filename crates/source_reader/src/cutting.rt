ghost use Rattle.std.specs.Prelude.{◌≡◌};
ghost use Rattle.source_reader.specs.Reading.{lesser_snap, cut_interface, cut_packet};
ghost use Rattle.source_reader.specs.inner.Cutting.{cut_step};

use cap_base::{Iface, Packet, Step};

/// The snap length of an interface where packets are cut to a length.
fn lesser_snap(most: u32, snap: u32) -> u32
    ensures { result ≡ lesser_snap most snap }
{
    if snap == 0 || most < snap { most } else { snap }
}

/// An interface whose packets are cut.
fn cut_interface(snap: Option<u32>, iface: Iface) -> Iface
    ensures { result ≡ cut_interface snap iface }
{
    match snap {
        None => iface,
        Some(most) => Iface {
            snap: lesser_snap(most, iface.snap),
            ..iface
        },
    }
}

/// A packet with the first bytes of its body.
fn cut_packet(snap: Option<u32>, mut packet: Packet) -> Packet
    ensures { result ≡ cut_packet snap packet }
{
    if let Some(most) = snap {
        packet.body.truncate(most as usize);
    }
    packet
}

/// A step with the snap length put on it.
pub fn cut_step(snap: Option<u32>, step: Step) -> Step
    ensures { result ≡ cut_step snap step }
{
    match step {
        Step::Iface(iface) => Step::Iface(cut_interface(snap, iface)),
        Step::Packet(packet) => Step::Packet(cut_packet(snap, packet)),
        Step::More => Step::More,
        Step::Bad { code, at } => Step::Bad { code, at },
    }
}

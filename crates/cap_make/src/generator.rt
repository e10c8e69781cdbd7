//! Which packets the generator makes.
ghost use Rattle.std.specs.Prelude.{◌≡◌, ◌<◌, [], length, IfOk};
ghost use Rattle.cap_make.specs.Generator.{after, length_by, body_of, packet_with};

use cap_base::{NoMemory, Notes, Octets, Packet};
use std::alloc::Global;

/// The multiplier of the linear congruential generator, modulo 2^64 (Knuth's MMIX).
const MULTIPLIER: u64 = 6_364_136_223_846_793_005;

/// Its increment.
const INCREMENT: u64 = 1_442_695_040_888_963_407;

/// The number behind another one.
#[tactic(auto, unfolding(crate::specs::Generator::after))]
pub fn after(x: u64) -> u64
    ensures { result ≡ after x }
{
    x.wrapping_mul(MULTIPLIER).wrapping_add(INCREMENT)
}

/// The length that a number stands for, of 0 to 255 bytes: of the number's bits the upper ones, since the lower ones of
/// such a generator repeat soon.
#[tactic(auto, unfolding(crate::specs::Generator::length_by))]
fn length_by(x: u64) -> u32
    ensures value { result ≡ length_by x }
    ensures small { result < 256 }
{
    ((x >> 33) % 256) as u32
}

/// The bytes of packet `number`: they count up from its number, modulo 256.
#[tactic(auto, using(crate::proofs::Packets::body_none, crate::proofs::Packets::body_more, crate::proofs::Packets::length_body))]
fn body_of(alloc: Global, number: u64, len: u32) -> Result<Octets, NoMemory>
    requires number { number < 1000000 }
    requires len { len < 256 }
    ensures value { IfOk result (λ body. body ≡ body_of number len) }
    ensures len { IfOk result (λ body. length body ≡ len) }
{
    let mut body = Octets::new(alloc);
    for place in 0..len {
        body.push(((number + place as u64) % 256) as u8)?;
    }
    Ok(body)
}

/// Packet `number`, of the length that a number of the sequence stands for. Its time is its number in microseconds.
#[tactic(auto, unfolding(crate::specs::Generator::packet_with))]
pub fn packet_with(alloc: Global, number: u64, x: u64) -> Result<Packet, NoMemory>
    requires { number < 1000000 }
    ensures value { IfOk result (λ p. p ≡ packet_with number (length_by x)) }
    ensures time { IfOk result (λ p. p.time < 1000000) }
    ensures body { IfOk result (λ p. length p.body < 256) }
    ensures notes { IfOk result (λ p. p.notes ≡ []) }
{
    let len = length_by(x);
    Ok(Packet {
        iface: 0,
        time: number,
        orig: len,
        body: body_of(alloc, number, len)?,
        notes: Notes::new(alloc),
    })
}

//! A source's end of the queue while its bytes are read.
ghost use Rattle.std.specs.Prelude.{◌≡◌, ◌≤◌, ◌<◌, ◌+◌, [], ◌∷◌, ◌++◌, true, false, length, map, All, OnOk, OnErr, IfOk, IfErr, None};
ghost use Rattle.std.specs.List.{list_any};
ghost use Rattle.cap_base.specs.declared.limits.TheConstants.{MAX_BATCH_PACKETS};
ghost use Rattle.cap_base.specs.Carried.{IsFitInterface, IsFitPacket};
ghost use Rattle.cap_base.specs.Events.{interface, packet as packet_event};
ghost use Rattle.turn_cell.specs.Passes.{is_worn};
ghost use Rattle.packet_queue.specs.Batches.{added_count};
ghost use Rattle.packet_queue.specs.Ends.{port_pass, port_numbers};
ghost use Rattle.source_thread.specs.inner.Sending.{IsSender, IsSenderWith, AllNumbered, Receives, ReceivesFront, Keeps, IsBreak, IsFresh, is_flushed_verdict, waiting};

use cap_base::{How, Iface, MAX_BATCH_PACKETS, Packet, Verdict, Worn};
use pacing::Pace;
use packet_queue::{Batch, Port, Queue};
use std::sync::Wait;
use turn_cell::Cell;

/// A source's end of the queue while its bytes are read: an interface is joined at once, packets wait until there is a
/// batch of them, or until they have to be offered.
#[derive(Drop)]
pub struct Sender<'a> {
    pub port: Port,
    /// The packets that wait. There is no batch once the turns are spent.
    pub batch: Option<Batch>,
    /// How many bytes their bodies have.
    pub bytes: u64,
    /// Whether a packet was flushed.
    pub flushed: bool,
    /// When the source offers.
    pub pace: Pace<'a>,
}

fn was_flushed(verdict: Verdict) -> bool
    ensures { result ≡ is_flushed_verdict verdict }
{
    matches!(verdict, Verdict::Flushed)
}

/// Whether a packet of a batch that was offered was flushed.
fn any_flushed(batch: &Batch) -> bool
    requires { added_count batch.now ≡ length batch.now.verdicts }
    ensures { result ≡ list_any is_flushed_verdict batch.now.verdicts }
{
    let count = batch.len();
    let mut flushed = false;
    let mut at = 0;
    'verdicts: while at < count {
        let Some(verdict) = batch.verdict(at) else {
            unreachable!()
        };
        flushed = flushed | was_flushed(verdict);
        at += 1;
    }
    flushed
}

/// Gives back the room of the packets that were not accepted, which leave the batch.
fn give_back(pace: &Pace, batch: &mut Batch) {
    let mut packets: u64 = 0;
    let mut bytes: u64 = 0;
    for _ in 0..MAX_BATCH_PACKETS {
        let Some(packet) = batch.back() else {
            break;
        };
        packets = packets.saturating_add(1);
        bytes = bytes.saturating_add(packet.body.len() as u64);
    }
    pace.give_back(packets, bytes);
}

impl<'a> Sender<'a> {
    /// How many packets wait.
    fn waiting_len(&self) -> usize
        requires { IsFresh self.now.batch }
        ensures { result ≡ length (waiting self.now) }
    {
        match &self.batch {
            None => 0,
            Some(batch) => batch.len(),
        }
    }

    /// Whether as many packets wait as may be offered at once.
    fn is_full(&self) -> bool
        requires { IsFresh self.now.batch }
        ensures { result ≡ false → length (waiting self.now) < MAX_BATCH_PACKETS }
    {
        let count = self.waiting_len();
        count >= MAX_BATCH_PACKETS || self.pace.is_full(count)
    }

    /// Lets a packet wait, unless the turns are spent.
    fn keep(&mut self, packet: Packet) -> Result<(), Worn>
        requires fresh { IsFresh self.old.batch }
        requires room { length (waiting self.old) < MAX_BATCH_PACKETS }
        ensures port { self.new.port ≡ self.old.port }
        ensures flushed { self.new.flushed ≡ self.old.flushed }
        ensures fresh { IsFresh self.new.batch }
        ensures kept { OnOk result (waiting self.new ≡ waiting self.old ++ packet ∷ []) }
        ensures present { OnOk result (self.new.batch ≡ None → self.old.batch ≡ None) }
        ensures absent { OnErr result ((self.old.batch ≡ None) × (self.new.batch ≡ None)) }
    {
        let bytes = packet.body.len() as u64;
        match &mut self.batch {
            None => Err(Worn),
            Some(batch) => {
                let None = batch.add(packet) else {
                    unreachable!()
                };
                self.bytes = self.bytes.saturating_add(bytes);
                Ok(())
            }
        }
    }

    /// Offers the packets that wait, in one turn, as soon as there is room for them. `Worn` where the turns are spent; then
    /// they are gone.
    fn offer_waiting<R: Wait>(&mut self, rt: &R, cell: &Cell<Queue>) -> Result<(), Worn>
        requires sender { IsSenderWith MAX_BATCH_PACKETS cell.now self.old }
        requires some { 0 < length (waiting self.old) }
        ensures sender { IsSender cell.now self.new }
        ensures keeps { Keeps self.old self.new }
        ensures empty { waiting self.new ≡ [] }
        ensures numbers { port_numbers self.new.port ≡ port_numbers self.old.port }
        ensures numbered { AllNumbered self.old → AllNumbered self.new }
        ensures receives { OnOk result (Receives self.old self.new []) }
        ensures front { OnErr result (ReceivesFront self.old self.new []) }
        ensures worn { OnErr result (is_worn (port_pass self.new.port) ≡ true) }
    {
        let Some(batch) = self.batch.take() else {
            unreachable!()
        };
        self.pace.reserve(rt, batch.len(), self.bytes, self.flushed);
        self.bytes = 0;
        let mut batch = self.port.offer_all(rt, cell, batch)?;
        self.flushed = self.flushed | any_flushed(&batch);
        give_back(&self.pace, &mut batch);
        batch.clear();
        self.batch = Some(batch);
        Ok(())
    }

    /// Offers the packets that wait. `Worn` where the turns are spent; then they are gone.
    pub fn offer_batch<R: Wait>(&mut self, rt: &R, cell: &Cell<Queue>) -> Result<(), Worn>
        requires sender { IsSender cell.now self.old }
        ensures sender { IsSender cell.now self.new }
        ensures keeps { Keeps self.old self.new }
        ensures empty { waiting self.new ≡ [] }
        ensures numbers { port_numbers self.new.port ≡ port_numbers self.old.port }
        ensures numbered { AllNumbered self.old → AllNumbered self.new }
        ensures receives { OnOk result (Receives self.old self.new []) }
        ensures front { OnErr result (ReceivesFront self.old self.new []) }
        ensures worn { OnErr result (is_worn (port_pass self.new.port) ≡ true) }
    {
        if self.waiting_len() == 0 {
            return Ok(());
        }
        self.offer_waiting(rt, cell)
    }

    /// Offers the packets that wait, where they would be too many bytes with one of this size.
    fn make_room<R: Wait>(&mut self, rt: &R, cell: &Cell<Queue>, bytes: usize) -> Result<(), Worn>
        requires sender { IsSender cell.now self.old }
        ensures sender { IsSender cell.now self.new }
        ensures keeps { Keeps self.old self.new }
        ensures numbers { port_numbers self.new.port ≡ port_numbers self.old.port }
        ensures numbered { AllNumbered self.old → AllNumbered self.new }
        ensures receives { OnOk result (Receives self.old self.new []) }
        ensures front { OnErr result (ReceivesFront self.old self.new []) }
        ensures empty { OnErr result (waiting self.new ≡ []) }
        ensures worn { OnErr result (is_worn (port_pass self.new.port) ≡ true) }
    {
        if !self.pace.overflows(self.bytes.saturating_add(bytes as u64)) {
            return Ok(());
        }
        self.offer_batch(rt, cell)
    }

    /// Lets a packet wait behind the others, and offers them where they are a batch.
    fn add_packet<R: Wait>(&mut self, rt: &R, cell: &Cell<Queue>, packet: Packet) -> Result<(), How>
        requires sender { IsSender cell.now self.old }
        requires numbered { AllNumbered self.old }
        requires joined { packet.iface < length (port_numbers self.old.port) }
        requires fit { IsFitPacket packet }
        ensures sender { IsSender cell.now self.new }
        ensures keeps { Keeps self.old self.new }
        ensures numbered { OnOk result (AllNumbered self.new) }
        ensures receives { OnOk result (Receives self.old self.new (packet_event packet ∷ [])) }
        ensures front { OnErr result (ReceivesFront self.old self.new (packet_event packet ∷ [])) }
        ensures cause { IfErr result (λ how. IsBreak how self.new) }
    {
        let Ok(()) = self.keep(packet) else {
            return Err(How::Worn);
        };
        if !self.is_full() {
            return Ok(());
        }
        let Ok(()) = self.offer_waiting(rt, cell) else {
            return Err(How::Worn);
        };
        Ok(())
    }

    /// Takes on a packet: it waits behind the others, and they are offered where they are a batch.
    pub fn add<R: Wait>(&mut self, rt: &R, cell: &Cell<Queue>, packet: Packet) -> Result<(), How>
        requires sender { IsSender cell.now self.old }
        requires numbered { AllNumbered self.old }
        requires joined { packet.iface < length (port_numbers self.old.port) }
        requires fit { IsFitPacket packet }
        ensures sender { IsSender cell.now self.new }
        ensures keeps { Keeps self.old self.new }
        ensures numbered { OnOk result (AllNumbered self.new) }
        ensures receives { OnOk result (Receives self.old self.new (packet_event packet ∷ [])) }
        ensures front { OnErr result (ReceivesFront self.old self.new (packet_event packet ∷ [])) }
        ensures cause { IfErr result (λ how. IsBreak how self.new) }
    {
        let Ok(()) = self.make_room(rt, cell, packet.body.len()) else {
            return Err(How::Worn);
        };
        self.add_packet(rt, cell, packet)
    }

    /// Offers the packets that wait, and joins an interface.
    pub fn join<R: Wait>(&mut self, rt: &R, cell: &Cell<Queue>, iface: Iface) -> Result<(), How>
        requires sender { IsSender cell.now self.old }
        requires numbered { AllNumbered self.old }
        requires fit { IsFitInterface iface }
        ensures sender { IsSender cell.now self.new }
        ensures keeps { Keeps self.old self.new }
        ensures numbered { OnOk result (AllNumbered self.new) }
        ensures receives { OnOk result (Receives self.old self.new (interface iface ∷ [])) }
        ensures front { OnErr result (ReceivesFront self.old self.new (interface iface ∷ [])) }
        ensures cause { IfErr result (λ how. IsBreak how self.new) }
    {
        let Ok(()) = self.offer_batch(rt, cell) else {
            return Err(How::Worn);
        };
        match self.port.join(rt, cell, iface) {
            Err(Worn) => Err(How::Worn),
            Ok(None) => Err(How::TooMany),
            Ok(Some(_number)) => Ok(()),
        }
    }
}

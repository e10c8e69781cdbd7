//! The events of a reader, entered at the queue.
ghost use Rattle.std.specs.Prelude.{◌≡◌, ◌≤◌, ◌<◌, ◌^◌, [], true, false, length, OnOk, OnErr, IfOk, IfErr};
ghost use Rattle.turn_cell.specs.Passes.{is_worn};
ghost use Rattle.packet_queue.specs.Ends.{port_pass};
ghost use Rattle.source_thread.specs.inner.Readers.{IsDrained, IsWaiting, IsBad, fed_count, name_of, ending_of_rest};
ghost use Rattle.source_thread.specs.inner.Sending.{IsSender, AllNumbered, Passed, PassedFront, ReceivesFront, Keeps, IsBreak, IsGiven, NextIs, waiting};

use crate::next::Next;
use crate::reader::{Reader, next_step};
use crate::sender::Sender;
use cap_base::{How, Step};
use packet_queue::Queue;
use std::sync::Wait;
use turn_cell::Cell;

/// One step of the reader, whose event the sender takes on.
fn enter_next<R: Wait>(
    rt: &R,
    cell: &Cell<Queue>,
    sender: &mut Sender,
    reader: &mut Reader,
) -> Result<Next, How>
    requires sender { IsSender cell.now sender.old }
    requires numbered { AllNumbered sender.old }
    requires given { IsGiven reader.old sender.old }
    ensures sender { IsSender cell.now sender.new }
    ensures keeps { Keeps sender.old sender.new }
    ensures numbered { OnOk result (AllNumbered sender.new) }
    ensures passed { OnOk result (Passed reader.old reader.new sender.old sender.new) }
    ensures next { IfOk result (λ next. NextIs reader.old reader.new next) }
    ensures front { OnErr result (PassedFront reader.old reader.new sender.old sender.new) }
    ensures cause { IfErr result (λ how. IsBreak how sender.new) }
    ensures name { name_of reader.new ≡ name_of reader.old }
    ensures snap { reader.new.snap ≡ reader.old.snap }
    ensures fed { fed_count reader.new ≡ fed_count reader.old }
{
    let Ok(step) = next_step(rt, &sender.pace, reader) else {
        return Err(How::NoMemory);
    };
    match step {
        Step::Iface(iface) => {
            sender.join(rt, cell, iface)?;
            Ok(Next::Given)
        }
        Step::Packet(packet) => {
            sender.add(rt, cell, packet)?;
            Ok(Next::Given)
        }
        Step::More => Ok(Next::Waits),
        Step::Bad { .. } => Ok(Next::Broken),
    }
}

/// All steps of the reader up to the last one, and whether that met a defect.
fn enter_kept<R: Wait>(
    rt: &R,
    cell: &Cell<Queue>,
    sender: &mut Sender,
    reader: &mut Reader,
) -> Result<bool, How>
    requires sender { IsSender cell.now sender.old }
    requires numbered { AllNumbered sender.old }
    requires given { IsGiven reader.old sender.old }
    ensures sender { IsSender cell.now sender.new }
    ensures keeps { Keeps sender.old sender.new }
    ensures numbered { OnOk result (AllNumbered sender.new) }
    ensures passed { OnOk result (Passed reader.old reader.new sender.old sender.new) }
    ensures drained { OnOk result (IsDrained reader.new) }
    ensures waits { IfOk result (λ broken. broken ≡ false → IsWaiting reader.new) }
    ensures broken { IfOk result (λ broken. broken ≡ true → IsBad (ending_of_rest reader.new)) }
    ensures front { OnErr result (PassedFront reader.old reader.new sender.old sender.new) }
    ensures cause { IfErr result (λ how. IsBreak how sender.new) }
    ensures name { name_of reader.new ≡ name_of reader.old }
    ensures snap { reader.new.snap ≡ reader.old.snap }
    ensures fed { fed_count reader.new ≡ fed_count reader.old }
{
    'events: loop {
        let next = enter_next(rt, cell, sender, reader)?;
        match next {
            Next::Given => {}
            Next::Waits => return Ok(false),
            Next::Broken => return Ok(true),
        }
    }
}

/// Offers the packets that wait, where the entering broke off.
fn offer_rest<R: Wait>(rt: &R, cell: &Cell<Queue>, sender: &mut Sender, how: How) -> How
    requires sender { IsSender cell.now sender.old }
    requires cause { IsBreak how sender.old }
    ensures sender { IsSender cell.now sender.new }
    ensures keeps { Keeps sender.old sender.new }
    ensures empty { waiting sender.new ≡ [] }
    ensures front { ReceivesFront sender.old sender.new [] }
    ensures cause { IsBreak result sender.new }
{
    let How::NoMemory = how else {
        return how;
    };
    let Ok(()) = sender.offer_batch(rt, cell) else {
        return How::Worn;
    };
    how
}

/// Enters all events that the reader's bytes hold, so that no packet waits, and says whether the bytes have a defect.
pub fn enter_events<R: Wait>(
    rt: &R,
    cell: &Cell<Queue>,
    sender: &mut Sender,
    reader: &mut Reader,
) -> Result<bool, How>
    requires sender { IsSender cell.now sender.old }
    requires numbered { AllNumbered sender.old }
    requires given { IsGiven reader.old sender.old }
    ensures sender { IsSender cell.now sender.new }
    ensures keeps { Keeps sender.old sender.new }
    ensures empty { waiting sender.new ≡ [] }
    ensures numbered { OnOk result (AllNumbered sender.new) }
    ensures passed { OnOk result (Passed reader.old reader.new sender.old sender.new) }
    ensures drained { OnOk result (IsDrained reader.new) }
    ensures waits { IfOk result (λ broken. broken ≡ false → IsWaiting reader.new) }
    ensures broken { IfOk result (λ broken. broken ≡ true → IsBad (ending_of_rest reader.new)) }
    ensures front { OnErr result (PassedFront reader.old reader.new sender.old sender.new) }
    ensures cause { IfErr result (λ how. IsBreak how sender.new) }
    ensures name { name_of reader.new ≡ name_of reader.old }
    ensures snap { reader.new.snap ≡ reader.old.snap }
    ensures fed { fed_count reader.new ≡ fed_count reader.old }
{
    match enter_kept(rt, cell, sender, reader) {
        Ok(broken) => {
            let Ok(()) = sender.offer_batch(rt, cell) else {
                return Err(How::Worn);
            };
            Ok(broken)
        }
        Err(how) => Err(offer_rest(rt, cell, sender, how)),
    }
}

ghost use Rattle.std.specs.Prelude.{◌≡◌, ◌<◌, ◌^◌, [], ◌∷◌, ◌++◌, length, IfOk, OnOk, OnErr, IsOk, ◌↔◌};
ghost use Rattle.drop_counters.specs.Tally.{counts_at, update, no_counts, one_received, one_dropped, one_flushed, one_written, one_unwritten};

use cap_base::{CountList, Counts, Full, MAX_INTERFACES, NoMemory};
use std::alloc::Global;
use std::marker::Model;

/// The counts of a capture by interface number, of at most 256 interfaces. In a contract it is the list of them.
#[derive(Debug, Drop)]
pub struct Tally {
    counts: Vec<Counts>,
}

impl Model for Tally {
    ghost use Rattle.std.specs.Prelude.{List, ◌≤◌, vec_capacity, length};
    ghost use Rattle.cap_base.specs.declared.counts.Counts.{Counts};
    ghost use Rattle.cap_base.specs.declared.limits.TheConstants.{MAX_INTERFACES};

    ghost Value = { List Counts };

    ghost view = { λ t. t.counts.items };

    ghost invariant = { λ t. (MAX_INTERFACES ≤ vec_capacity t.counts) × (length t.counts.items ≤ MAX_INTERFACES) };
}

impl Tally {
    /// Counts of no interface. All memory is taken here.
    pub fn new(alloc: Global) -> Result<Tally, NoMemory>
        ensures { IfOk result (λ t. t ≡ []) }
    {
        let counts = Vec::with_capacity(alloc, MAX_INTERFACES)?;
        Ok(Tally { counts })
    }

    /// Counts one interface more, under the next number; `Full` exactly at 256, and then nothing changes.
    pub fn add_interface(&mut self) -> Result<(), Full>
        ensures variant { IsOk result ↔ (length self.old < MAX_INTERFACES) }
        ensures ok { OnOk result (self.new ≡ self.old ++ no_counts ∷ []) }
        ensures err { OnErr result (self.new ≡ self.old) }
    {
        if self.counts.len() >= MAX_INTERFACES {
            return Err(Full);
        }
        let none = Counts {
            recv: 0,
            drop: 0,
            flush: 0,
            written: 0,
        };
        let Ok(()) = self.counts.push(none) else {
            unreachable!()
        };
        Ok(())
    }

    /// One packet more of this interface was offered.
    pub fn received(&mut self, number: u16)
        requires known { number < length self.old }
        requires small { (counts_at self.old number).recv < 2 ^ 62 }
        ensures { self.new ≡ update one_received number self.old }
    {
        let counts = &mut self.counts[number as usize];
        counts.recv += 1;
    }

    /// One packet more of this interface was dropped at a limit.
    pub fn dropped(&mut self, number: u16)
        requires known { number < length self.old }
        requires small { (counts_at self.old number).drop < 2 ^ 62 }
        ensures { self.new ≡ update one_dropped number self.old }
    {
        let counts = &mut self.counts[number as usize];
        counts.drop += 1;
    }

    /// One packet more of this interface was flushed by a stop.
    pub fn flushed(&mut self, number: u16)
        requires known { number < length self.old }
        requires small { (counts_at self.old number).flush < 2 ^ 62 }
        ensures { self.new ≡ update one_flushed number self.old }
    {
        let counts = &mut self.counts[number as usize];
        counts.flush += 1;
    }

    /// One packet more of this interface was taken by the writer.
    pub fn written(&mut self, number: u16)
        requires known { number < length self.old }
        requires small { (counts_at self.old number).written < 2 ^ 62 }
        ensures { self.new ≡ update one_written number self.old }
    {
        let counts = &mut self.counts[number as usize];
        counts.written += 1;
    }

    /// A packet of this interface that was taken is lost: it moves from the written to the flushed.
    pub fn unwritten(&mut self, number: u16)
        requires known { number < length self.old }
        requires some { 0 < (counts_at self.old number).written }
        requires small { (counts_at self.old number).flush < 2 ^ 62 }
        ensures { self.new ≡ update one_unwritten number self.old }
    {
        let counts = &mut self.counts[number as usize];
        counts.written -= 1;
        counts.flush += 1;
    }

    /// Puts all counts, by interface number, into the room that is lent, whatever it held before. It takes no memory.
    pub fn fill(&self, mut room: CountList) -> CountList
        ensures { result ≡ self.now }
    {
        room.clear();
        for counts in &self.counts {
            let Ok(()) = room.push(*counts) else {
                unreachable!()
            };
        }
        room
    }
}

#[cfg(test)]
mod tests {
    use super::*;
    use std::test::Fail;

    // Two interfaces: of the first two packets came, of which one was dropped and one was taken and then lost.
    #[test]
    fn counts_each_fate(rt: HostRuntime) -> Result<(), Fail> {
        let mut tally = Tally::new(rt.alloc())?;
        assert!(rt; tally.add_interface().is_ok());
        assert!(rt; tally.add_interface().is_ok());
        tally.received(0);
        tally.dropped(0);
        tally.received(0);
        tally.written(0);
        tally.unwritten(0);
        tally.received(1);
        tally.flushed(1);
        let filled = tally.fill(CountList::new(rt.alloc())?);
        let first = Counts {
            recv: 2,
            drop: 1,
            flush: 1,
            written: 0,
        };
        let second = Counts {
            recv: 1,
            drop: 0,
            flush: 1,
            written: 0,
        };
        assert_eq!(rt; filled.get(0).copied(), Some(first));
        assert_eq!(rt; filled.get(1).copied(), Some(second));
        assert_eq!(rt; filled.len(), 2);
        Ok(())
    }
}

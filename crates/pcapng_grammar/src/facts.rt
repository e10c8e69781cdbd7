ghost use Rattle.std.specs.Prelude.{◌≡◌, ◌<◌, ◌+◌, ◌^◌, [], ◌∷◌, ◌++◌, length, slice_get, slice_index, slice_set, IfOk, OnOk};
ghost use Rattle.std.specs.List.{sum};
ghost use Rattle.std.specs.Option.{option_copied};

use cap_base::NoMemory;
use std::alloc::Global;
use std::marker::Model;

/// What an interface statistics block (draft-ietf-opsawg-pcapng, section 4.6) says of its interface, in packets.
#[derive(Clone, Copy, Debug, PartialEq, Eq)]
pub struct Counted {
    /// isb_ifrecv: the packets that were received.
    pub recv: u64,
    /// isb_ifdrop: those of them that were dropped.
    pub drop: u64,
    /// isb_usrdeliv: those of them that were written.
    pub delivered: u64,
}

/// How many packets each interface has in a file, by its number. In a contract it is that list.
#[derive(Debug, Drop)]
pub struct Totals {
    totals: Vec<u64>,
}

impl Model for Totals {
    ghost use Rattle.std.specs.Prelude.{List, ℕ};

    ghost Value = { List ℕ };

    ghost view = { λ o. o.totals.items };
}

impl Totals {
    /// The empty list. It takes no memory.
    pub(crate) fn new(alloc: Global) -> Totals
        ensures { result ≡ [] }
    {
        Totals {
            totals: Vec::new(alloc),
        }
    }

    /// Adds an interface without packets. `NoMemory` where memory ran out.
    pub(crate) fn add_interface(&mut self) -> Result<(), NoMemory>
        ensures { OnOk result (self.new ≡ self.old ++ 0 ∷ []) }
    {
        self.totals.push(0)?;
        Ok(())
    }

    /// Adds a packet of an interface.
    pub(crate) fn add_packet(&mut self, number: usize)
        requires known { number < length self.old }
        requires room { slice_index self.old number + 1 < 2 ^ 64 }
        ensures { self.new ≡ slice_set self.old number (slice_index self.old number + 1) }
    {
        self.totals[number] += 1;
    }

    /// How many packets there are of all interfaces.
    pub fn sum(&self) -> u64
        requires { sum self.now < 2 ^ 64 }
        ensures { result ≡ sum self.now }
    {
        self.totals.iter().copied().sum()
    }

    /// How many interfaces there are.
    pub fn len(&self) -> usize
        ensures { result ≡ length self.now }
    {
        self.totals.len()
    }

    /// The packets of the interface with a number; `None` exactly where it isn't below the length.
    pub fn get(&self, at: usize) -> Option<&u64>
        ensures { option_copied result ≡ slice_get self.now at }
    {
        self.totals.get(at)
    }
}

/// What the statistics blocks of a file say, by the number of the interface. In a contract it is that list.
#[derive(Debug, Drop)]
pub struct CountedList {
    counts: Vec<Counted>,
}

impl Model for CountedList {
    ghost use Rattle.std.specs.Prelude.{List};
    ghost use Rattle.pcapng_grammar.specs.declared.facts.Counted.{Counted};

    ghost Value = { List Counted };

    ghost view = { λ o. o.counts.items };
}

impl CountedList {
    /// The empty list. It takes no memory.
    pub(crate) fn new(alloc: Global) -> CountedList
        ensures { result ≡ [] }
    {
        CountedList {
            counts: Vec::new(alloc),
        }
    }

    /// Adds the counts of the next interface. `NoMemory` where memory ran out.
    pub(crate) fn push(&mut self, counts: Counted) -> Result<(), NoMemory>
        ensures { OnOk result (self.new ≡ self.old ++ counts ∷ []) }
    {
        self.counts.push(counts)?;
        Ok(())
    }

    /// How many interfaces have counts.
    pub fn len(&self) -> usize
        ensures { result ≡ length self.now }
    {
        self.counts.len()
    }

    /// The counts of the interface with a number; `None` exactly where it isn't below the length.
    pub fn get(&self, at: usize) -> Option<&Counted>
        ensures { option_copied result ≡ slice_get self.now at }
    {
        self.counts.get(at)
    }
}

/// What an output file holds. Each list has one entry for each description.
#[derive(Debug, Drop)]
pub struct FileFacts {
    /// How many packets of each interface stand in it.
    pub packets: Totals,
    /// What its statistics blocks say.
    pub counts: CountedList,
}

ghost use Rattle.std.specs.Prelude.{◌≡◌, ◌<◌, ◌≤◌, [], ◌∷◌, ◌++◌, length, slice_get, IfOk, OnOk, OnErr, IsOk, IsNone, ◌↔◌};

use cap_base::{Full, MAX_INTERFACES, NoMemory};
use std::alloc::Global;
use std::marker::Model;

/// The output numbers of one source's interfaces, at most 256. In a contract it is the list of these numbers, by the
/// source's own number.
#[derive(Debug, Drop)]
pub struct Numbers {
    numbers: Vec<u16>,
}

impl Model for Numbers {
    ghost use Rattle.std.specs.Prelude.{List, ℕ, ◌≤◌, vec_capacity, length};
    ghost use Rattle.cap_base.specs.declared.limits.TheConstants.{MAX_INTERFACES};

    ghost Value = { List ℕ };

    ghost view = { λ m. m.numbers.items };

    ghost invariant = { λ m. (MAX_INTERFACES ≤ vec_capacity m.numbers) × (length m.numbers.items ≤ MAX_INTERFACES) };
}

impl Numbers {
    /// No number is put. All memory is taken here.
    pub fn new(alloc: Global) -> Result<Numbers, NoMemory>
        ensures { IfOk result (λ m. m ≡ []) }
    {
        let numbers = Vec::with_capacity(alloc, MAX_INTERFACES)?;
        Ok(Numbers { numbers })
    }

    /// Puts the output number of the source's next interface. `Full` exactly at 256, and then nothing changes.
    pub fn put(&mut self, number: u16) -> Result<(), Full>
        ensures variant { IsOk result ↔ (length self.old < MAX_INTERFACES) }
        ensures ok { OnOk result (self.new ≡ self.old ++ number ∷ []) }
        ensures err { OnErr result (self.new ≡ self.old) }
    {
        if self.numbers.len() >= MAX_INTERFACES {
            return Err(Full);
        }
        let Ok(()) = self.numbers.push(number) else {
            unreachable!()
        };
        Ok(())
    }

    /// The output number of the source's interface of this number; `None` exactly where none was put there.
    pub fn get(&self, local: u16) -> Option<u16>
        ensures value { result ≡ slice_get self.now local }
        ensures none { IsNone result ↔ (length self.now ≤ local) }
    {
        self.numbers.get(local as usize).copied()
    }
}

#[cfg(test)]
mod tests {
    use super::*;
    use std::test::Fail;

    // A source whose first two interfaces have the output numbers 4 and 2.
    #[test]
    fn translates_numbers(rt: HostRuntime) -> Result<(), Fail> {
        let mut numbers = Numbers::new(rt.alloc())?;
        assert_eq!(rt; numbers.put(4), Ok(()));
        assert_eq!(rt; numbers.put(2), Ok(()));
        assert_eq!(rt; numbers.get(0), Some(4));
        assert_eq!(rt; numbers.get(1), Some(2));
        assert_eq!(rt; numbers.get(2), None);
        Ok(())
    }
}

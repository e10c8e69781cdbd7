ghost use Rattle.std.specs.Prelude.{◌≡◌, ◌<◌, ◌≤◌, [], ◌∷◌, ◌++◌, length, slice_get, IfOk, OnErr, IsOk, IsNone, None, ◌↔◌};

use cap_base::{Full, MAX_INTERFACES, NoMemory};
use std::alloc::Global;
use std::marker::Model;

/// The sources of the numbered interfaces, at most 256. In a contract it is the list of these sources, by number.
#[derive(Debug, Drop)]
pub struct Map {
    owners: Vec<u8>,
}

impl Model for Map {
    ghost use Rattle.std.specs.Prelude.{List, ℕ, ◌≤◌, vec_capacity, length};
    ghost use Rattle.cap_base.specs.declared.limits.TheConstants.{MAX_INTERFACES};

    ghost Value = { List ℕ };

    ghost view = { λ m. m.owners.items };

    ghost invariant = { λ m. (MAX_INTERFACES ≤ vec_capacity m.owners) × (length m.owners.items ≤ MAX_INTERFACES) };
}

impl Map {
    /// No interface is numbered. All memory is taken here.
    pub fn new(alloc: Global) -> Result<Map, NoMemory>
        ensures { IfOk result (λ m. m ≡ []) }
    {
        let owners = Vec::with_capacity(alloc, MAX_INTERFACES)?;
        Ok(Map { owners })
    }

    /// Numbers an interface of a source: the number is how many were numbered before. `Full` exactly at 256, and then
    /// nothing changes.
    pub fn add(&mut self, source: u8) -> Result<u16, Full>
        ensures variant { IsOk result ↔ (length self.old < MAX_INTERFACES) }
        ensures number { IfOk result (λ n. n ≡ length self.old) }
        ensures fresh { IfOk result (λ n. slice_get self.old n ≡ None) }
        ensures added { IfOk result (λ n. self.new ≡ self.old ++ source ∷ []) }
        ensures err { OnErr result (self.new ≡ self.old) }
    {
        let number = self.owners.len();
        if number >= MAX_INTERFACES {
            return Err(Full);
        }
        let Ok(()) = self.owners.push(source) else {
            unreachable!()
        };
        Ok(number as u16)
    }

    /// The source of a numbered interface; `None` exactly where the number was not given.
    pub fn owner(&self, number: u16) -> Option<u8>
        ensures value { result ≡ slice_get self.now number }
        ensures none { IsNone result ↔ (length self.now ≤ number) }
    {
        self.owners.get(number as usize).copied()
    }
}

#[cfg(test)]
mod tests {
    use super::*;
    use std::test::Fail;

    // Each interface gets the next number, and the 257th none.
    #[test]
    fn numbers_256_interfaces(rt: HostRuntime) -> Result<(), Fail> {
        let mut map = Map::new(rt.alloc())?;
        for number in 0..256u16 {
            assert_eq!(rt; map.add((number % 7) as u8), Ok(number));
        }
        assert_eq!(rt; map.add(1), Err(Full));
        assert_eq!(rt; map.owner(255), Some(3));
        assert_eq!(rt; map.owner(256), None);
        Ok(())
    }
}

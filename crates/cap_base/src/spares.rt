ghost use Rattle.std.specs.Prelude.{◌≡◌, ◌≤◌, [], IfOk, IfSome};

use crate::failures::NoMemory;
use crate::octets::Octets;
use std::alloc::Global;
use std::marker::Model;

/// The most bodies whose memory is kept.
const MAX_SPARES: usize = 64;

/// The most bytes of room of a body whose memory is kept.
const MAX_SPARE_ROOM: usize = 4_096;

/// The memory of at most 64 bodies that are no longer needed, for the next ones. In a contract it is nothing: no result
/// depends on what is kept.
#[derive(Debug, Drop)]
pub struct Spares {
    bodies: Vec<Octets>,
}

impl Model for Spares {
    ghost use Rattle.std.specs.Prelude.{◌≤◌, vec_capacity, length};
    ghost use Rattle.cap_base.specs.declared.spares.TheConstants.{MAX_SPARES};

    ghost Value = { Unit {0} };

    ghost view = { λ s. tt };

    ghost invariant = { λ s. (MAX_SPARES ≤ vec_capacity s.bodies) × (length s.bodies.items ≤ MAX_SPARES) };
}

impl Spares {
    /// Without a body. The room for 64 is taken here, so that keeping one needs no memory.
    pub fn new(alloc: Global) -> Result<Spares, NoMemory> {
        let bodies = Vec::with_capacity(alloc, MAX_SPARES)?;
        Ok(Spares { bodies })
    }

    /// Keeps the memory of a body; frees it where 64 are kept, or where it has room for more than 4,096 bytes.
    pub fn put(&mut self, body: Octets) {
        if self.bodies.len() < MAX_SPARES && body.capacity() <= MAX_SPARE_ROOM {
            let Ok(()) = self.bodies.push(body) else {
                unreachable!()
            };
        }
    }

    /// An empty body in kept memory; `None` where none is kept.
    pub fn take(&mut self) -> Option<Octets>
        ensures { IfSome result (λ body. body ≡ []) }
    {
        let mut body = self.bodies.pop()?;
        body.clear();
        Some(body)
    }

    /// A body with these bytes, in kept memory where there is some. Where memory is wanting, kept memory may be freed.
    pub fn body_of(&mut self, alloc: Global, bytes: &[u8]) -> Result<Octets, NoMemory>
        ensures { IfOk result (λ body. body ≡ bytes.now) }
    {
        let mut body = match self.take() {
            Some(body) => body,
            None => Octets::new(alloc),
        };
        body.append(bytes)?;
        Ok(body)
    }

    /// Of how many bodies memory is kept.
    pub fn len(&self) -> usize
        ensures { result ≤ MAX_SPARES }
    {
        self.bodies.len()
    }
}

ghost use Rattle.std.specs.Prelude.{◌≡◌, ◌≤◌, ◌+◌, ◌^◌, ◌↔◌, [], ◌++◌, length, take, IfOk, OnErr};
ghost use Rattle.std.specs.Prelude.{ℕ, Ok};
ghost use Rattle.cap_base.specs.Carried.{IsFitStep};
ghost use Rattle.cap_base.specs.Endings.{IsEnd};

use crate::cutting::cut_step;
use crate::stage::{Stage, begin};
use cap_base::{Code, How, Name, NoMemory, Octets, Spares, Step};
use input_buffer::MAX_UNREAD_LEN;
use std::alloc::Global;
use std::marker::Model;

/// A reader of a source, which is fed its bytes in pieces of any length.
///
/// In a contract it is its snap length and where it stands: before the format is known, or in a pipe of a format.
/// `StandsFor` ties it to all bytes fed and all events given, so no contract speaks of the pieces. The memory that it has
/// for the next bodies is no part of that.
#[derive(Drop)]
pub struct Reader {
    alloc: Global,
    snap: Option<u32>,
    stage: Stage,
}

impl Model for Reader {
    ghost use Rattle.source_reader.specs.State.{State};
    ghost use Rattle.source_reader.specs.inner.Stages.{IsKept};

    ghost Value = { State };

    ghost view = { λ r. record { snap = r.snap; stage = r.stage } };

    ghost invariant = { λ r. IsKept r.stage };
}

impl Reader {
    ghost use Rattle.source_reader.specs.State.{State, StandsFor, IsDrained, IsWaiting, Feeds, Gives, EndsAs, Steps, IsLawful, fresh, room_for, kept_of, name_of, fed_count, ending_of_rest};

    /// A reader that was fed nothing. The interfaces will have the name where their descriptions give none;
    /// it has at most 65,535 bytes. With a snap length no interface has a longer one and no packet more bytes.
    pub fn new(alloc: Global, name: Name, snap: Option<u32>) -> Result<Reader, NoMemory>
        requires { length name ≤ 65535 }
        ensures value { IfOk result (λ r. r ≡ fresh name snap) }
        ensures stands { IfOk result (λ r. StandsFor r [] []) }
        ensures drained { IfOk result (λ r. IsDrained r) }
    {
        Ok(Reader {
            alloc,
            snap,
            stage: Stage::Choosing {
                name,
                head: Octets::new(alloc),
            },
        })
    }

    /// Takes as many bytes as bring the kept bytes to 16,842,752 at most, and answers how many. It answers 0 for a piece
    /// that isn't empty exactly after a defect, or where so many are kept.
    pub fn feed(&mut self, piece: &[u8]) -> Result<usize, NoMemory>
        requires { fed_count self.old + length piece.now ≤ 2 ^ 62 }
        ensures count { IfOk result (λ n. n ≡ room_for self.old (length piece.now)) }
        ensures kept { IfOk result (λ n. kept_of self.new ≡ kept_of self.old ++ take n piece.now) }
        ensures sum { IfOk result (λ n. fed_count self.new ≡ fed_count self.old + n) }
        ensures fed { IfOk result (λ n. Feeds self.old self.new (take n piece.now)) }
        ensures name { name_of self.new ≡ name_of self.old }
        ensures snap { self.new.snap ≡ self.old.snap }
        ensures err { OnErr result (self.new ≡ self.old) }
    {
        match &mut self.stage {
            Stage::Classic(pipe) => pipe.feed(piece),
            Stage::Pcapng(pipe) => pipe.feed(piece),
            Stage::Choosing { name, head } => {
                let count = piece.len().min(MAX_UNREAD_LEN.saturating_sub(head.len()));
                let stage = begin(self.alloc, name, head, &piece[..count])?;
                self.stage = stage;
                Ok(count)
            }
        }
    }

    /// The next event: the interfaces and packets of the source, in their order.
    ///
    /// `More` comes exactly where the kept bytes hold no event and no defect; fewer than four bytes hold none. `Bad` comes
    /// exactly at the first defect, and is answered from then on. `NoMemory` gives nothing and loses nothing, and the call
    /// may be made again.
    pub fn next(&mut self) -> Result<Step, NoMemory>
        ensures step { IfOk result (λ step. Steps self.old self.new step) }
        ensures fit { IfOk result (λ step. IsFitStep step) }
        ensures lawful { IfOk result (λ step. IsLawful self.old self.new step) }
        ensures more { IfOk result (λ step. (step ≡ Step.More) ↔ IsWaiting self.old) }
        ensures again { (code : Code) (at : ℕ) → ending_of_rest self.old ≡ How.Bad code at → (self.new ≡ self.old) × (result ≡ Ok (Step.Bad code at)) }
        ensures same { fed_count self.new ≡ fed_count self.old }
        ensures name { name_of self.new ≡ name_of self.old }
        ensures snap { self.new.snap ≡ self.old.snap }
        ensures err { OnErr result (Gives self.old self.new []) }
    {
        match &mut self.stage {
            Stage::Choosing { .. } => Ok(Step::More),
            Stage::Classic(pipe) => match pipe.next() {
                Ok(step) => Ok(cut_step(self.snap, step)),
                Err(NoMemory) => Err(NoMemory),
            },
            Stage::Pcapng(pipe) => match pipe.next() {
                Ok(step) => Ok(cut_step(self.snap, step)),
                Err(NoMemory) => Err(NoMemory),
            },
        }
    }

    /// Whether spare bodies can be used and none is left, so that the next packet's body is allocated. Before the format is
    /// known none can be used.
    pub fn wants_spares(&self) -> bool {
        match &self.stage {
            Stage::Choosing { .. } => false,
            Stage::Classic(pipe) => pipe.wants_spares(),
            Stage::Pcapng(pipe) => pipe.wants_spares(),
        }
    }

    /// Takes emptied bodies, in whose memory the next packets' bodies are made, and answers those that it had. Before the
    /// format is known it answers the same ones.
    pub fn refill(&mut self, spares: Spares) -> Spares
        ensures { self.new ≡ self.old }
    {
        match &mut self.stage {
            Stage::Choosing { .. } => spares,
            Stage::Classic(pipe) => pipe.refill(spares),
            Stage::Pcapng(pipe) => pipe.refill(spares),
        }
    }

    /// How many bytes were fed.
    pub fn fed(&self) -> u64
        ensures { result ≡ fed_count self.now }
    {
        match &self.stage {
            Stage::Choosing { head, .. } => head.len() as u64,
            Stage::Classic(pipe) => pipe.fed(),
            Stage::Pcapng(pipe) => pipe.fed(),
        }
    }

    /// How the bytes fed end, where nothing is to come: `Bad` after a defect, `Clean` behind a file header or section
    /// header where no byte is kept, else `Cut` at the place of what isn't finished.
    ///
    /// Call it after `next` answered `More` or `Bad`, before the next `feed`.
    pub fn finish(&self) -> How
        requires { IsDrained self.now }
        ensures end { IsEnd result }
        ensures how { result ≡ ending_of_rest self.now }
        ensures ends { EndsAs self.now (λ how. how ≡ result) }
    {
        match &self.stage {
            Stage::Choosing { .. } => How::Cut { at: 0 },
            Stage::Classic(pipe) => pipe.finish(),
            Stage::Pcapng(pipe) => pipe.finish(),
        }
    }
}

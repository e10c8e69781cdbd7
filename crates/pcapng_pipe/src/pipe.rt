ghost use Rattle.std.specs.Prelude.{ℕ, ◌≡◌, ◌≤◌, ◌+◌, ◌^◌, ◌↔◌, Ok, [], length, take, IfOk, IfSome, IfNone, OnOk, OnErr, ◌∷◌};
ghost use Rattle.pcapng_pipe.specs.Pieces.{passed};
ghost use Rattle.pcapng_pipe.specs.inner.Blocks.{whole_of};

use crate::passing::{body_between, passed_at};
use crate::sections::Sections;
use crate::stage::Stage;
use crate::value::Value;
use crate::whole::Whole;
use cap_base::{Code, How, Name, NoMemory, Octets, Spares, Step};
use input_buffer::InputBuffer;
use pcapng_blocks::{Block, BlockFault, passed_over, read_block_into};
use std::alloc::Global;
use std::marker::Model;
use std::mem;

/// The first bytes.
fn front_of(text: &[u8], len: usize) -> &[u8]
    requires { len ≤ length text.now }
    ensures { result.now ≡ take len text.now }
{
    &text[..len]
}

/// As a step that may be a block that is passed on.
fn whole_of(step: Step) -> Whole
    ensures { result ≡ whole_of step }
{
    match step {
        Step::Iface(iface) => Whole::Iface(iface),
        Step::Packet(packet) => Whole::Packet(packet),
        Step::More => Whole::More,
        Step::Bad { code, at } => Whole::Bad { code, at },
    }
}

/// A reader of pcapng, which is fed the text in pieces of any length.
///
/// In a contract it is its name, what the blocks so far say, where it stands in the text, and the bytes that it keeps:
/// those that were fed and not read yet. `StandsFor` ties it to all bytes fed and all events given, so no contract speaks
/// of the pieces. The memory that it has for the next bodies is no part of that.
#[derive(Drop)]
pub struct PcapngPipe {
    alloc: Global,
    name: Octets,
    sections: Sections,
    stage: Stage,
    input: InputBuffer,
    spares: Spares,
}

impl Model for PcapngPipe {
    ghost use Rattle.std.specs.Prelude.{◌≤◌, length};
    ghost use Rattle.pcapng_pipe.specs.Pipe.{Pipe};

    ghost Value = { Pipe };

    ghost view = { λ p. record { name = p.name; context = p.sections; stage = p.stage; place = p.input.place; kept = p.input.kept } };

    ghost invariant = { λ p. length p.name ≤ 65535 };
}

impl PcapngPipe {
    ghost use Rattle.pcapng_pipe.specs.Pipe.{StandsFor, IsDrained, IsWaiting, Feeds, Gives, EndsAs, Steps, IsLawful, fresh, room_for, with_kept, fed_count, ending_of_rest};
    ghost use Rattle.pcapng_pipe.specs.Pieces.{events_among};
    ghost use Rattle.pcapng_pipe.specs.Passing.{StandsForPieces, FeedsPieces, GivesPieces, HoldsNoPiece, WaitsForPieces, StepsPiece, IsFitWhole, IsLawfulWhole, given_by};
    ghost use Rattle.pcapng_pipe.specs.inner.Blocks.{StepsOf, TakesBlock, Passes, Breaks, ReadsOne, WholeOne, events_by};
    ghost use Rattle.pcapng_pipe.specs.inner.Passed.{IsPassedHere, HasNonePassed, IsFramed};
    ghost use Rattle.pcapng_pipe.specs.inner.Taking.{IsFitValue};
    ghost use Rattle.cap_base.specs.Endings.{IsEnd};
    ghost use Rattle.cap_base.specs.Carried.{IsFitStep};
    ghost use Rattle.pcapng_blocks.specs.Reading.{IsFitBlock};

    /// A pipe that was fed nothing. Its interfaces will have the name where their descriptions give none;
    /// it has at most 65,535 bytes.
    pub fn new(alloc: Global, name: Name) -> Result<PcapngPipe, NoMemory>
        requires { length name ≤ 65535 }
        ensures value { IfOk result (λ p. p ≡ fresh name) }
        ensures stands { IfOk result (λ p. StandsFor p [] []) }
        ensures drained { IfOk result (λ p. IsDrained p) }
        ensures stands_for_pieces { IfOk result (λ p. StandsForPieces p [] []) }
        ensures holds_none { IfOk result (λ p. HoldsNoPiece p) }
    {
        let mut bytes = Octets::new(alloc);
        bytes.append(name.as_text().as_bytes())?;
        let input = InputBuffer::new(alloc)?;
        Ok(PcapngPipe {
            alloc,
            name: bytes,
            sections: Sections::new(alloc),
            stage: Stage::Blocks,
            input,
            spares: Spares::new(alloc)?,
        })
    }

    /// Takes as many bytes as bring the kept bytes to 16,842,752 at most, and answers how many. It answers 0 for a piece
    /// that isn't empty exactly after a defect, or where so many are kept.
    pub fn feed(&mut self, piece: &[u8]) -> Result<usize, NoMemory>
        requires { fed_count self.old + length piece.now ≤ 2 ^ 62 }
        ensures count { IfOk result (λ n. n ≡ room_for self.old (length piece.now)) }
        ensures kept { IfOk result (λ n. self.new ≡ with_kept self.old (take n piece.now)) }
        ensures fed { IfOk result (λ n. Feeds self.old self.new (take n piece.now)) }
        ensures pieces { IfOk result (λ n. FeedsPieces self.old self.new (take n piece.now)) }
        ensures err { OnErr result (self.new ≡ self.old) }
    {
        if let Stage::Broken(_) = self.stage {
            return Ok(0);
        }
        self.input.feed(piece)
    }

    /// Whether no spare body is left, so that the next packet's body is allocated.
    pub fn wants_spares(&self) -> bool {
        self.spares.len() == 0
    }

    /// Takes emptied bodies, in whose memory the next packets' bodies are made, and answers those that it had.
    pub fn refill(&mut self, spares: Spares) -> Spares
        ensures { self.new ≡ self.old }
    {
        mem::replace(&mut self.spares, spares)
    }

    /// How many bytes were fed.
    pub fn fed(&self) -> u64
        ensures { result ≡ fed_count self.now }
    {
        self.input.fed()
    }

    /// How the kept bytes end, where they hold no whole block.
    fn ending_of_rest(&self) -> How
        ensures end { IsEnd result }
        ensures how { result ≡ ending_of_rest self.now }
    {
        let at = self.input.place();
        if let Stage::Broken(code) = self.stage {
            return How::Bad { code, at };
        }
        if !self.input.is_empty() {
            return How::Cut { at };
        }
        if self.sections.has_section() {
            How::Clean
        } else {
            How::Cut { at }
        }
    }

    /// How the bytes fed end, where nothing is to come: `Bad` after a defect, `Clean` behind a section header where no
    /// byte is kept, else `Cut` at the place of the unfinished block.
    ///
    /// Call it after `next` or `next_block` answered `More` or `Bad`, before the next `feed`.
    pub fn finish(&self) -> How
        requires { IsDrained self.now }
        ensures end { IsEnd result }
        ensures how { result ≡ ending_of_rest self.now }
        ensures ends { EndsAs self.now (λ how. how ≡ result) }
    {
        self.ending_of_rest()
    }

    /// Has met a defect, at the first of the kept bytes.
    #[cold]
    fn refuse(&mut self, code: Code) -> Step
        ensures breaks { Breaks code self.old self.new }
        ensures step { result ≡ Step.Bad code self.old.place }
    {
        self.stage = Stage::Broken(code);
        Step::Bad {
            code,
            at: self.input.place(),
        }
    }

    /// Reads on behind the first of the kept bytes.
    fn pass(&mut self, len: usize)
        requires { len ≤ length self.old.kept }
        ensures { Passes len self.old.context self.old self.new }
    {
        self.input.pass(len);
        self.stage = Stage::Blocks;
    }

    /// What a block of the kept bytes comes to, of a length; the sections stand behind it already.
    fn step_of(&mut self, value: Value, len: usize) -> Option<Step>
        requires len { len ≤ length self.old.kept }
        requires fit { IsFitValue value }
        ensures steps { StepsOf len self.old self.new value result }
        ensures fit { IfSome result (λ s. IsFitStep s) }
    {
        match value {
            Value::Defect(code) => Some(self.refuse(code)),
            Value::Nothing => {
                self.pass(len);
                None
            }
            Value::Iface(iface) => {
                self.pass(len);
                Some(Step::Iface(iface))
            }
            Value::Packet(packet) => {
                self.pass(len);
                Some(Step::Packet(packet))
            }
        }
    }

    /// Reads on behind a block.
    fn take(&mut self, block: Block, len: usize) -> Result<Option<Step>, NoMemory>
        requires stage { self.old.stage ≡ Stage.Blocks }
        requires len { len ≤ length self.old.kept }
        requires fit { IsFitBlock block }
        ensures fit { IfOk result (λ r. IfSome r (λ s. IsFitStep s)) }
        ensures taken { IfOk result (λ r. TakesBlock block len self.old self.new r) }
        ensures err { OnErr result (self.new ≡ self.old) }
    {
        let value = self.sections.take(self.alloc, &self.name, block)?;
        Ok(self.step_of(value, len))
    }

    /// Reads one block.
    fn read_one(&mut self) -> Result<Option<Step>, NoMemory>
        requires { self.old.stage ≡ Stage.Blocks }
        ensures reads { IfOk result (λ r. ReadsOne self.old self.new r) }
        ensures fit { IfOk result (λ r. IfSome r (λ s. IsFitStep s)) }
        ensures err { OnErr result (self.new ≡ self.old) }
    {
        let text = self.input.kept()?;
        if text.is_empty() {
            return Ok(Some(Step::More));
        }
        if self.sections.is_unlike(text) {
            return Ok(Some(self.refuse(Code::Magic)));
        }
        let order = self.sections.order();
        if let Some(len) = passed_over(order, text) {
            self.pass(len);
            return Ok(None);
        }
        match read_block_into(self.alloc, order, text, &mut self.spares) {
            Ok((block, len)) => self.take(block, len),
            Err(BlockFault::Short) => Ok(Some(Step::More)),
            Err(BlockFault::Bad(code)) => Ok(Some(self.refuse(code))),
            Err(BlockFault::NoMemory) => Err(NoMemory),
        }
    }

    /// Reads blocks up to the first that gives an event.
    fn next_event(&mut self) -> Result<Step, NoMemory>
        requires { self.old.stage ≡ Stage.Blocks }
        ensures step { IfOk result (λ step. Steps self.old self.new step) }
        ensures fit { IfOk result (λ step. IsFitStep step) }
        ensures lawful { IfOk result (λ step. IsLawful self.old self.new step) }
        ensures more { IfOk result (λ step. (step ≡ Step.More) ↔ IsWaiting self.old) }
        ensures same { fed_count self.new ≡ fed_count self.old }
        ensures name { self.new.name ≡ self.old.name }
        ensures err { OnErr result (Gives self.old self.new []) }
    {
        'read: loop {
            if let Some(step) = self.read_one()? {
                return Ok(step);
            }
        }
    }

    /// The next event: the interfaces and packets of the blocks, in their order.
    ///
    /// `More` comes exactly where the kept bytes hold no event and no defect. `Bad` comes exactly at the first defect, and
    /// is answered from then on. `NoMemory` gives nothing and loses nothing: blocks that give no event may have been passed
    /// over, and the call may be made again.
    pub fn next(&mut self) -> Result<Step, NoMemory>
        ensures step { IfOk result (λ step. Steps self.old self.new step) }
        ensures fit { IfOk result (λ step. IsFitStep step) }
        ensures lawful { IfOk result (λ step. IsLawful self.old self.new step) }
        ensures more { IfOk result (λ step. (step ≡ Step.More) ↔ IsWaiting self.old) }
        ensures again { (code : Code) (at : ℕ) → ending_of_rest self.old ≡ How.Bad code at → (self.new ≡ self.old) × (result ≡ Ok (Step.Bad code at)) }
        ensures same { fed_count self.new ≡ fed_count self.old }
        ensures name { self.new.name ≡ self.old.name }
        ensures err { OnErr result (Gives self.old self.new []) }
    {
        match self.stage {
            Stage::Broken(code) => Ok(Step::Bad {
                code,
                at: self.input.place(),
            }),
            Stage::Blocks => self.next_event(),
        }
    }

    /// The type and the length of the block that the kept bytes begin with, where it is passed on.
    fn passed_here(&self) -> Result<Option<(u32, usize)>, NoMemory>
        ensures passed { IfOk result (λ r. IfSome r (λ found. IsPassedHere self.now found.0 found.1)) }
        ensures none { IfOk result (λ r. IfNone r (HasNonePassed self.now)) }
    {
        if !self.sections.is_little() {
            return Ok(None);
        }
        let text = self.input.kept()?;
        Ok(passed_at(text))
    }

    /// Takes the block of this type and length that is passed on.
    fn take_passed(&mut self, kind: u32, len: usize) -> Result<Whole, NoMemory>
        requires { IsPassedHere self.old kind len }
        ensures passes { OnOk result (Passes len self.old.context self.old self.new) }
        ensures whole { IfOk result (λ w. given_by w ≡ passed (take len self.old.kept) ∷ []) }
        ensures fit { IfOk result (λ w. IsFitWhole w) }
        ensures err { OnErr result (self.new ≡ self.old) }
    {
        let text = self.input.kept()?;
        let body = Octets::from_slice(self.alloc, body_between(front_of(text, len)))?;
        self.pass(len);
        Ok(Whole::Passed { kind, body })
    }

    /// Reads one block, or takes it as it stands where it is passed on.
    fn read_whole(&mut self) -> Result<Option<Whole>, NoMemory>
        requires { self.old.stage ≡ Stage.Blocks }
        ensures step { IfOk result (λ r. WholeOne self.old self.new r) }
        ensures events { IfOk result (λ r. Gives self.old self.new (events_by r)) }
        ensures fit { IfOk result (λ r. IfSome r (λ w. IsFitWhole w)) }
        ensures lawful { IfOk result (λ r. IfSome r (λ w. IsLawfulWhole self.old self.new w)) }
        ensures more { IfOk result (λ r. IfSome r (λ w. (w ≡ Whole.More) ↔ WaitsForPieces self.old)) }
        ensures same { fed_count self.new ≡ fed_count self.old }
        ensures name { self.new.name ≡ self.old.name }
        ensures err { OnErr result (self.new ≡ self.old) }
    {
        let found = self.passed_here()?;
        if let Some((kind, len)) = found {
            let whole = self.take_passed(kind, len)?;
            return Ok(Some(whole));
        }
        match self.read_one()? {
            Some(step) => Ok(Some(whole_of(step))),
            None => Ok(None),
        }
    }

    /// Reads blocks up to the first that gives a piece.
    fn next_whole(&mut self) -> Result<Whole, NoMemory>
        requires { self.old.stage ≡ Stage.Blocks }
        ensures step { IfOk result (λ whole. StepsPiece self.old self.new whole) }
        ensures events { IfOk result (λ whole. Gives self.old self.new (events_among (given_by whole))) }
        ensures fit { IfOk result (λ whole. IsFitWhole whole) }
        ensures lawful { IfOk result (λ whole. IsLawfulWhole self.old self.new whole) }
        ensures more { IfOk result (λ whole. (whole ≡ Whole.More) ↔ WaitsForPieces self.old) }
        ensures same { fed_count self.new ≡ fed_count self.old }
        ensures name { self.new.name ≡ self.old.name }
        ensures err { OnErr result (GivesPieces self.old self.new [] × Gives self.old self.new []) }
    {
        'read: loop {
            if let Some(whole) = self.read_whole()? {
                return Ok(whole);
            }
        }
    }

    /// The next piece: the interfaces and packets of the blocks, and the blocks that are passed on, in their order.
    ///
    /// Passed on are the blocks of types 4 (name resolution), 0x0A (decryption secrets) and 0x0BAD (custom, may be copied)
    /// of little-endian sections. It is called in place of `next`, which passes over these, or beside it.
    ///
    /// `More` comes exactly where the kept bytes hold no piece and no defect. `Bad` comes exactly at the first defect, and
    /// is answered from then on. `NoMemory` gives nothing and loses nothing, as with `next`.
    pub fn next_block(&mut self) -> Result<Whole, NoMemory>
        ensures step { IfOk result (λ whole. StepsPiece self.old self.new whole) }
        ensures events { IfOk result (λ whole. Gives self.old self.new (events_among (given_by whole))) }
        ensures fit { IfOk result (λ whole. IsFitWhole whole) }
        ensures lawful { IfOk result (λ whole. IsLawfulWhole self.old self.new whole) }
        ensures more { IfOk result (λ whole. (whole ≡ Whole.More) ↔ WaitsForPieces self.old) }
        ensures again { (code : Code) (at : ℕ) → ending_of_rest self.old ≡ How.Bad code at → (self.new ≡ self.old) × (result ≡ Ok (Whole.Bad code at)) }
        ensures same { fed_count self.new ≡ fed_count self.old }
        ensures name { self.new.name ≡ self.old.name }
        ensures err { OnErr result (GivesPieces self.old self.new [] × Gives self.old self.new []) }
    {
        match self.stage {
            Stage::Broken(code) => Ok(Whole::Bad {
                code,
                at: self.input.place(),
            }),
            Stage::Blocks => self.next_whole(),
        }
    }
}

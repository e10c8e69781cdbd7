ghost use Rattle.std.specs.Prelude.{ℕ, ◌≡◌, ◌≤◌, ◌<◌, ◌+◌, ◌^◌, Ok, [], ◌∷◌, length, take, None, IfOk, IfSome, OnErr};
ghost use Rattle.cap_base.specs.Carried.{IsFitInterface};
ghost use Rattle.cap_base.specs.Events.{interface};
ghost use Rattle.cap_base.specs.declared.limits.TheConstants.{MAX_BLOCK_LEN, MAX_INTERFACES};
ghost use Rattle.pcapng_blocks.specs.Spelling.{block_text};
ghost use Rattle.pcapng_pipe.specs.Pieces.{event, passed};
ghost use Rattle.pcapng_pipe.specs.Pipe.{room_for, with_kept, ending_of_rest};

use crate::held::Held;
use crate::step::PassStep;
use cap_base::{Code, How, Iface, MAX_INTERFACES, Name, NoMemory, Octets, Spares};
use pcapng_blocks::Block;
use pcapng_pipe::{PcapngPipe, Whole};
use std::alloc::Global;
use std::marker::Model;

/// The least bytes of a block: its type, and its length twice.
const FRAME_LEN: usize = 12;

/// The bytes of a little-endian block of a type with this body.
fn block_bytes(alloc: Global, kind: u32, body: &Octets) -> Result<Octets, NoMemory>
    requires { length body.now + 12 ≤ MAX_BLOCK_LEN }
    ensures { IfOk result (λ o. o ≡ block_text kind body.now) }
{
    let len = (body.len() + FRAME_LEN) as u32;
    let mut bytes = Octets::new(alloc);
    bytes.append(&kind.to_le_bytes())?;
    bytes.append(&len.to_le_bytes())?;
    bytes.append(body.as_slice())?;
    bytes.append(&len.to_le_bytes())?;
    Ok(bytes)
}

/// What a source is passed on into, block by block. It is fed the text of the source in pieces of any length.
///
/// In a contract it is the record `Passer` of the pipe that reads the text, of how many interfaces were given, and of a piece
/// that it holds. `StandsFor` ties it to all bytes fed and all pieces given. The memory that it has for the next bodies is no
/// part of that.
#[derive(Drop)]
pub struct Passer {
    alloc: Global,
    pipe: PcapngPipe,
    interfaces: usize,
    held: Option<Held>,
    /// Bodies that were given back, until the pipe has none left.
    spent: Option<Spares>,
}

impl Model for Passer {
    ghost use Rattle.std.specs.Prelude.{◌≤◌, IfSome};
    ghost use Rattle.cap_base.specs.declared.limits.TheConstants.{MAX_INTERFACES};
    ghost use Rattle.pass_blocks.specs.Passer.{Passer};
    ghost use Rattle.pass_blocks.specs.inner.Held.{pieces_of, IsFitHeld};

    ghost Value = { Passer };

    ghost view = { λ p. record { pipe = p.pipe; interfaces = p.interfaces; held = pieces_of p.held } };

    ghost invariant = { λ p. (p.interfaces ≤ MAX_INTERFACES) × IfSome p.held (λ h. IsFitHeld h) };
}

impl Passer {
    ghost use Rattle.pass_blocks.specs.Passer.{StandsFor, Feeds, Gives, EndsAs, IsDrained, IsFull, Steps, IsLawful, IsFitStep, fresh, fed_count, waiting};
    ghost use Rattle.pass_blocks.specs.inner.Held.{piece_of, holding, IsFitHeld};
    ghost use Rattle.cap_base.specs.Endings.{IsEnd};

    /// A passer that was fed nothing. The source's interfaces will have the name where their descriptions give none; it has
    /// at most 65,535 bytes.
    pub fn new(alloc: Global, name: Name) -> Result<Passer, NoMemory>
        requires { length name ≤ 65535 }
        ensures value { IfOk result (λ p. p ≡ fresh name) }
        ensures stands { IfOk result (λ p. StandsFor p [] []) }
        ensures drained { IfOk result (λ p. IsDrained p) }
    {
        Ok(Passer {
            alloc,
            pipe: PcapngPipe::new(alloc, name)?,
            interfaces: 0,
            held: None,
            spent: Some(Spares::new(alloc)?),
        })
    }

    /// Takes as many bytes as bring the kept bytes to 16,842,752 at most, and answers how many. It answers 0 for a piece
    /// that isn't empty exactly after a defect, or where so many are kept.
    pub fn feed(&mut self, piece: &[u8]) -> Result<usize, NoMemory>
        requires { fed_count self.old + length piece.now ≤ 2 ^ 62 }
        ensures count { IfOk result (λ n. n ≡ room_for self.old.pipe (length piece.now)) }
        ensures kept { IfOk result (λ n. self.new.pipe ≡ with_kept self.old.pipe (take n piece.now)) }
        ensures fed { IfOk result (λ n. Feeds self.old self.new (take n piece.now)) }
        ensures err { OnErr result (self.new ≡ self.old) }
    {
        self.pipe.feed(piece)
    }

    /// Takes back a step that is no longer needed. In the memory of a packet's body a later one is made.
    pub fn recycle(&mut self, step: PassStep)
        ensures { self.new ≡ self.old }
    {
        let PassStep::Block(Block::Enhanced(packet)) = step else {
            return;
        };
        let Some(mut spent) = self.spent.take() else {
            return;
        };
        spent.put(packet.body);
        if self.pipe.wants_spares() {
            spent = self.pipe.refill(spent);
        }
        self.spent = Some(spent);
    }

    /// How many bytes were fed.
    pub fn fed(&self) -> u64
        ensures { result ≡ fed_count self.now }
    {
        self.pipe.fed()
    }

    /// How the bytes fed end, where nothing is to come: `Bad` after a defect, `Clean` behind a section header where no
    /// byte is kept, else `Cut` at the place of the unfinished block.
    ///
    /// Call it after `next` answered `More` or `Bad`, before the next `feed`.
    pub fn finish(&self) -> How
        requires { IsDrained self.now }
        ensures end { IsEnd result }
        ensures how { result ≡ ending_of_rest self.now.pipe }
        ensures ends { EndsAs self.now (λ how. how ≡ result) }
    {
        self.pipe.finish()
    }

    /// Gives an interface, unless it is one too many.
    #[cold]
    #[tactic(auto, using(crate::proofs::Steps::interface_given, crate::proofs::Steps::interface_kept, crate::proofs::Steps::can_write_interface))]
    fn give_interface(&mut self, iface: Iface) -> PassStep
        requires none { self.old.held ≡ [] }
        requires fit { IsFitInterface iface }
        ensures step { Steps (holding self.old (event (interface iface))) self.new result }
        ensures fit { IsFitStep result }
        ensures lawful { IsLawful (holding self.old (event (interface iface))) self.new result }
        ensures full { self.old.interfaces ≡ MAX_INTERFACES → (self.new ≡ holding self.old (event (interface iface))) × (result ≡ PassStep.TooMany) }
        ensures most { self.new.interfaces ≤ MAX_INTERFACES }
        ensures pipe { self.new.pipe ≡ self.old.pipe }
    {
        if self.interfaces >= MAX_INTERFACES {
            self.held = Some(Held::Interface(iface));
            return PassStep::TooMany;
        }
        self.interfaces += 1;
        PassStep::Block(Block::Interface(iface))
    }

    /// Gives a block that is passed on, where there is memory for its bytes.
    #[cold]
    #[tactic(auto, using(crate::proofs::Steps::passed_given))]
    fn give_passed(&mut self, kind: u32, body: Octets) -> Result<PassStep, NoMemory>
        requires none { self.old.held ≡ [] }
        requires fit { length body + 12 ≤ MAX_BLOCK_LEN }
        ensures step { IfOk result (λ step. Steps (holding self.old (passed (block_text kind body))) self.new step) }
        ensures fit { IfOk result (λ step. IsFitStep step) }
        ensures lawful { IfOk result (λ step. IsLawful (holding self.old (passed (block_text kind body))) self.new step) }
        ensures most { self.new.interfaces ≤ MAX_INTERFACES }
        ensures pipe { self.new.pipe ≡ self.old.pipe }
        ensures err { OnErr result (self.new ≡ holding self.old (passed (block_text kind body))) }
    {
        let Ok(bytes) = block_bytes(self.alloc, kind, &body) else {
            self.held = Some(Held::Passed { kind, body });
            return Err(NoMemory);
        };
        Ok(PassStep::Passed(bytes))
    }

    /// Gives a piece that was held.
    #[cold]
    fn give(&mut self, held: Held) -> Result<PassStep, NoMemory>
        requires none { self.old.held ≡ [] }
        requires fit { IsFitHeld held }
        ensures step { IfOk result (λ step. Steps (holding self.old (piece_of held)) self.new step) }
        ensures fit { IfOk result (λ step. IsFitStep step) }
        ensures lawful { IfOk result (λ step. IsLawful (holding self.old (piece_of held)) self.new step) }
        ensures full { IsFull (holding self.old (piece_of held)) → (self.new ≡ holding self.old (piece_of held)) × (result ≡ Ok PassStep.TooMany) }
        ensures most { self.new.interfaces ≤ MAX_INTERFACES }
        ensures pipe { self.new.pipe ≡ self.old.pipe }
        ensures err { OnErr result (self.new ≡ holding self.old (piece_of held)) }
    {
        match held {
            Held::Interface(iface) => Ok(self.give_interface(iface)),
            Held::Passed { kind, body } => self.give_passed(kind, body),
        }
    }

    /// Reads the next piece, and gives it.
    fn read(&mut self) -> Result<PassStep, NoMemory>
        requires { self.old.held ≡ [] }
        ensures step { IfOk result (λ step. Steps self.old self.new step) }
        ensures fit { IfOk result (λ step. IsFitStep step) }
        ensures lawful { IfOk result (λ step. IsLawful self.old self.new step) }
        ensures again { (code : Code) (at : ℕ) → ending_of_rest self.old.pipe ≡ How.Bad code at → (self.new ≡ self.old) × (result ≡ Ok (PassStep.Bad code at)) }
        ensures most { self.new.interfaces ≤ MAX_INTERFACES }
        ensures same { fed_count self.new ≡ fed_count self.old }
        ensures name { self.new.pipe.name ≡ self.old.pipe.name }
        ensures err { OnErr result (Gives self.old self.new []) }
    {
        match self.pipe.next_block()? {
            Whole::Iface(iface) => Ok(self.give_interface(iface)),
            Whole::Packet(packet) => Ok(PassStep::Block(Block::Enhanced(packet))),
            Whole::Passed { kind, body } => self.give_passed(kind, body),
            Whole::More => Ok(PassStep::More),
            Whole::Bad { code, at } => Ok(PassStep::Bad { code, at }),
        }
    }

    /// The next block of the file: a description for each interface, a block for each packet, and the blocks that are passed
    /// on, in the order of the source.
    ///
    /// `More` comes exactly where the bytes fed hold nothing more and no defect, `Bad` exactly at the first defect, and
    /// `TooMany` exactly where 256 interfaces were given and one more is described; the latter two are answered from then on.
    /// `NoMemory` gives nothing and loses nothing: the call may be made again.
    pub fn next(&mut self) -> Result<PassStep, NoMemory>
        ensures step { IfOk result (λ step. Steps self.old self.new step) }
        ensures fit { IfOk result (λ step. IsFitStep step) }
        ensures lawful { IfOk result (λ step. IsLawful self.old self.new step) }
        ensures again { (code : Code) (at : ℕ) → ending_of_rest self.old.pipe ≡ How.Bad code at → self.old.held ≡ [] → (self.new ≡ self.old) × (result ≡ Ok (PassStep.Bad code at)) }
        ensures full { IsFull self.old → (self.new ≡ self.old) × (result ≡ Ok PassStep.TooMany) }
        ensures most { self.new.interfaces ≤ MAX_INTERFACES }
        ensures same { fed_count self.new ≡ fed_count self.old }
        ensures name { self.new.pipe.name ≡ self.old.pipe.name }
        ensures err { OnErr result (Gives self.old self.new []) }
    {
        match self.held.take() {
            Some(held) => self.give(held),
            None => self.read(),
        }
    }
}

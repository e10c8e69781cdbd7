ghost use Rattle.std.specs.Prelude.{◌≡◌, ◌≤◌, ◌<◌, ◌+◌, ◌⊎◌, ◌↔◌, ℕ, List, [], None, IfOk, IfSome, OnOk, OnErr, length, is_some, true};
ghost use Rattle.pcapng_pipe.specs.Pipe.{fed_count};
ghost use Rattle.cap_base.specs.Endings.{IsOpen};
ghost use Rattle.live_follower.specs.Packets.{Holds, AllGiven};
ghost use Rattle.live_follower.specs.Faults.{IsBehind};
ghost use Rattle.live_follower.specs.Seen.{seen_by};
ghost use Rattle.live_follower.specs.Asked.{Asks, LooksOnce};

use crate::fault::FollowFault;
use crate::found::Found;
use crate::progress::Progress;
use crate::reading::{PIECE_LEN, seek};
use cap_base::{Name, NoMemory};
use cap_outside::View;
use pcapng_pipe::PcapngPipe;
use std::alloc::Global;
use std::marker::Model;
use sync_pipe::Said;

/// The most packets that are announced.
const MOST_ANNOUNCED: u64 = 1 << 62;

/// A follower of a capture: it hears the messages, and gives the packets of the file that they name last.
///
/// In a contract it is that file's name, how many packets of it were announced and given, and the pipe that reads it.
/// `StandsFor` ties it to all messages heard, all bytes read of the file, and all packets given of it.
#[derive(Drop)]
pub struct Follower {
    alloc: Global,
    file: Option<Name>,
    announced: u64,
    given: u64,
    pipe: PcapngPipe,
    piece: Vec<u8>,
}

impl Model for Follower {
    ghost use Rattle.std.specs.Prelude.{◌≡◌, ◌≤◌, ◌^◌, length, None};
    ghost use Rattle.pcapng_pipe.specs.Pipe.{fed_count};
    ghost use Rattle.live_follower.specs.Following.{Following};

    ghost Value = { Following };

    ghost view = { λ f. record { file = f.file; announced = f.announced; given = f.given; pipe = f.pipe } };

    ghost invariant = { λ f. (f.given ≤ f.announced) × (f.announced ≤ 2 ^ 62) × (f.file ≡ None → f.given ≡ 0) × (length f.piece.items ≡ 65536) × (fed_count f.pipe ≤ 2 ^ 62) };
}

/// A pipe that was fed nothing. It names no interface, since a follower gives packets alone.
fn empty_pipe(alloc: Global) -> Result<PcapngPipe, NoMemory>
    ensures holds { IfOk result (λ p. Holds p [] []) }
    ensures none { IfOk result (λ p. fed_count p ≡ 0) }
{
    PcapngPipe::new(alloc, Name::from_text(alloc, "")?)
}

impl Follower {
    ghost use Rattle.live_follower.specs.Following.{Following, StandsFor, Hears, ReadsOn, Answers, Wants, name_of, packets_given};

    /// A follower that heard nothing.
    pub fn new(alloc: Global) -> Result<Follower, NoMemory>
        ensures { IfOk result (λ f. StandsFor f [] [] []) }
    {
        let mut piece = Vec::new(alloc);
        piece.resize(PIECE_LEN, 0)?;
        Ok(Follower {
            alloc,
            file: None,
            announced: 0,
            given: 0,
            pipe: empty_pipe(alloc)?,
            piece,
        })
    }

    /// Begins a file, of which nothing was read.
    fn begin(&mut self, name: &Name) -> Result<(), NoMemory>
        ensures ok { OnOk result ((self.new.file ≡ Some name.now) × (self.new.announced ≡ 0) × (self.new.given ≡ 0) × Holds self.new.pipe [] []) }
        ensures err { OnErr result (self.new ≡ self.old) }
    {
        let name = name.copy()?;
        let pipe = empty_pipe(self.alloc)?;
        self.file = Some(name);
        self.announced = 0;
        self.given = 0;
        self.pipe = pipe;
        Ok(())
    }

    /// Hears a message: a file's name begins that file, and a count announces so many packets more of it, up to 2^62 in
    /// all. Other messages change nothing.
    pub fn hear(&mut self, said: &Said) -> Result<(), NoMemory>
        ensures ok { OnOk result (Hears said.now self.old self.new) }
        ensures err { OnErr result (self.new ≡ self.old) }
    {
        match said {
            Said::File(name) => self.begin(name),
            Said::Count(count) => {
                self.announced = self.announced.saturating_add(*count).min(MOST_ANNOUNCED);
                Ok(())
            }
            Said::Drops(..) | Said::Error(..) => Ok(()),
        }
    }

    /// The next packet of the file, where fewer were given than announced, else `Reached`. Packets of the bytes that were
    /// read come first; then the file is read on from the last byte read, `budget` bytes at most, and the view is asked
    /// before the first read whether the file is there.
    ///
    /// `More` comes where `budget` bytes were read in this call, or 2^62 of the file, and they hold no further packet.
    /// `NoFile` comes exactly where packets were announced and no file was named, `Gone` where the view finds no file,
    /// `Behind` where it shows no more of it, `ViewFault` where a call of the view failed, and `Bad` where all packets
    /// before a defect were given, again at each call. After each fault what was read is kept, and the call may be made
    /// again.
    pub fn catch_up<V: View>(&mut self, view: &mut V, budget: u64) -> Result<Progress, FollowFault>
        requires { 1 ≤ budget }
        ensures reads { ReadsOn (V.shown view.old (name_of self.old)) self.old self.new (packets_given result) }
        ensures file { self.new.file ≡ self.old.file }
        ensures announced { self.new.announced ≡ self.old.announced }
        ensures given { self.new.given ≡ self.old.given + length (packets_given result) }
        ensures answers { Answers budget (seen_by V.shown V.absent V.ends V.faults view.old view.new (name_of self.old)) self.old self.new result }
        ensures there { ((fed_count self.old.pipe < fed_count self.new.pipe) ⊎ IsBehind result) → IfSome (V.shown view.old (name_of self.old)) (λ file. is_some file ≡ true) }
        ensures looks { (view.new ≡ view.old) ⊎ (Wants self.old × AllGiven self.old.pipe IsOpen) }
        ensures asked { Asks V.asked view.old view.new (LooksOnce (name_of self.old) (fed_count self.old.pipe) (fed_count self.new.pipe) result) }
        ensures same { (other : List ℕ) → V.shown view.new other ≡ V.shown view.old other }
        ensures reached { (result ≡ Ok Progress.Reached) ↔ (self.old.given ≡ self.old.announced) }
        ensures no_file { (result ≡ Err FollowFault.NoFile) ↔ ((self.old.file ≡ None) × (0 < self.old.announced)) }
    {
        if self.given == self.announced {
            return Ok(Progress::Reached);
        }
        let Some(name) = &self.file else {
            return Err(FollowFault::NoFile);
        };
        match seek(view, name, &mut self.pipe, &mut self.piece, budget)? {
            Found::Packet(packet) => {
                self.given += 1;
                Ok(Progress::Packet(packet))
            }
            Found::More => Ok(Progress::More),
            Found::Bad(at) => Err(FollowFault::Bad { at }),
        }
    }
}

ghost use Rattle.std.specs.Prelude.{◌≡◌, ◌≤◌, ◌<◌, ◌+◌, ◌^◌, ◌⊎◌, ℕ, List, [], ◌∷◌, length, min, IfOk, IfErr, OnOk, OnErr, IfSome, is_some, true};
ghost use Rattle.pcapng_pipe.specs.Pipe.{fed_count, Feeds, with_kept};
ghost use Rattle.live_follower.specs.Faults.{FaultCause, IsBehind, reading_end};
ghost use Rattle.live_follower.specs.inner.Seeking.{Reads, FoundIs, LookCause, Waits, packets_found};
ghost use Rattle.cap_base.specs.Endings.{IsOpen};
ghost use Rattle.live_follower.specs.Packets.{AllGiven};
ghost use Rattle.live_follower.specs.Seen.{seen_by, Quiet};
ghost use Rattle.live_follower.specs.Asked.{Asks, LooksOnce, ReadsOnce};
ghost use Rattle.cap_outside.specs.Told.{Leads};
ghost use Rattle.cap_outside.specs.declared.view_call.ViewCall.TheVariants.{Find};

use crate::fault::FollowFault;
use crate::found::Found;
use crate::packets::next_packet;
use cap_base::{Name, NoMemory};
use cap_outside::View;
use pcapng_pipe::PcapngPipe;

/// How many bytes a read asks for.
pub(crate) const PIECE_LEN: usize = 65_536;

/// The most bytes of one file.
const MOST_READ: u64 = 1 << 62;

/// Feeds a whole piece.
fn feed_piece(pipe: &mut PcapngPipe, bytes: &[u8]) -> Result<(), NoMemory>
    requires waits { Waits pipe.old }
    requires short { length bytes.now ≤ 65536 }
    requires fits { fed_count pipe.old + length bytes.now ≤ 2 ^ 62 }
    ensures fed { OnOk result (Feeds pipe.old pipe.new bytes.now) }
    ensures kept { OnOk result (pipe.new ≡ with_kept pipe.old bytes.now) }
    ensures err { OnErr result (pipe.new ≡ pipe.old) }
{
    pipe.feed(bytes)?;
    Ok(())
}

/// Reads a piece of the file, and looks for a packet.
fn read_piece<V: View>(
    view: &mut V,
    name: &Name,
    pipe: &mut PcapngPipe,
    piece: &mut [u8],
) -> Result<Found, FollowFault>
    requires waits { Waits pipe.old }
    requires some { 0 < length piece.old }
    requires short { length piece.old ≤ 65536 }
    requires fits { fed_count pipe.old + length piece.old ≤ 2 ^ 62 }
    ensures reads { Reads (V.shown view.old name.now) pipe.old pipe.new (packets_found result) }
    ensures found { IfOk result (λ found. FoundIs pipe.new found) }
    ensures more { OnOk result (fed_count pipe.old < fed_count pipe.new) }
    ensures most { fed_count pipe.new ≤ fed_count pipe.old + length piece.old }
    ensures quiet { OnOk result (Quiet (seen_by V.shown V.absent V.ends V.faults view.old view.new name.now)) }
    ensures fault { IfErr result (λ e. FaultCause (fed_count pipe.old + length piece.old) (seen_by V.shown V.absent V.ends V.faults view.old view.new name.now) pipe.new e) }
    ensures asked { Asks V.asked view.old view.new (ReadsOnce name.now (fed_count pipe.old) (fed_count pipe.new) result) }
    ensures same { (other : List ℕ) → V.shown view.new other ≡ V.shown view.old other }
{
    let at = pipe.fed();
    let Ok(count) = view.read_at(name, at, piece) else {
        return Err(FollowFault::ViewFault);
    };
    if count == 0 {
        return Err(FollowFault::Behind { shown: at });
    }
    feed_piece(pipe, &piece[..count])?;
    Ok(next_packet(pipe)?)
}

/// Reads the file on up to the next packet.
fn read_on<V: View>(
    view: &mut V,
    name: &Name,
    pipe: &mut PcapngPipe,
    piece: &mut [u8],
    budget: u64,
) -> Result<Found, FollowFault>
    requires waits { Waits pipe.old }
    requires piece { length piece.old ≡ 65536 }
    requires fits { fed_count pipe.old ≤ 2 ^ 62 }
    ensures reads { Reads (V.shown view.old name.now) pipe.old pipe.new (packets_found result) }
    ensures found { IfOk result (λ found. FoundIs pipe.new found) }
    ensures more { (result ≡ Ok Found.More) → fed_count pipe.new ≡ reading_end budget pipe.old }
    ensures most { fed_count pipe.new ≤ reading_end budget pipe.old }
    ensures quiet { OnOk result (Quiet (seen_by V.shown V.absent V.ends V.faults view.old view.new name.now)) }
    ensures fault { IfErr result (λ e. FaultCause (reading_end budget pipe.old) (seen_by V.shown V.absent V.ends V.faults view.old view.new name.now) pipe.new e) }
    ensures asked { Asks V.asked view.old view.new (ReadsOnce name.now (fed_count pipe.old) (fed_count pipe.new) result) }
    ensures same { (other : List ℕ) → V.shown view.new other ≡ V.shown view.old other }
{
    let mut left = budget.min(MOST_READ - pipe.fed());
    'reads: while left > 0 {
        let most = left.min(PIECE_LEN as u64) as usize;
        let before = pipe.fed();
        match read_piece(view, name, pipe, &mut piece[..most])? {
            Found::More => left -= pipe.fed() - before,
            found => return Ok(found),
        }
    }
    Ok(Found::More)
}

/// Looks whether the file is there.
fn look<V: View>(view: &mut V, name: &Name) -> Result<(), FollowFault>
    ensures found { OnOk result (IfSome (V.shown view.old name.now) (λ file. is_some file ≡ true)) }
    ensures quiet { OnOk result (Quiet (seen_by V.shown V.absent V.ends V.faults view.old view.new name.now)) }
    ensures fault { IfErr result (λ e. LookCause (seen_by V.shown V.absent V.ends V.faults view.old view.new name.now) e) }
    ensures asked { Leads V.asked view.old view.new (Find name.now ∷ []) }
    ensures same { (other : List ℕ) → V.shown view.new other ≡ V.shown view.old other }
{
    let Ok(there) = view.find(name) else {
        return Err(FollowFault::ViewFault);
    };
    if !there {
        return Err(FollowFault::Gone { name: name.copy()? });
    }
    Ok(())
}

/// Looks for the file, and reads it on up to the next packet.
fn look_and_read<V: View>(
    view: &mut V,
    name: &Name,
    pipe: &mut PcapngPipe,
    piece: &mut [u8],
    budget: u64,
) -> Result<Found, FollowFault>
    requires budget { 1 ≤ budget }
    requires waits { Waits pipe.old }
    requires piece { length piece.old ≡ 65536 }
    requires fits { fed_count pipe.old < 2 ^ 62 }
    ensures reads { Reads (V.shown view.old name.now) pipe.old pipe.new (packets_found result) }
    ensures found { IfOk result (λ found. FoundIs pipe.new found) }
    ensures more { (result ≡ Ok Found.More) → fed_count pipe.new ≡ reading_end budget pipe.old }
    ensures most { fed_count pipe.new ≤ reading_end budget pipe.old }
    ensures there { ((fed_count pipe.old < fed_count pipe.new) ⊎ IsBehind result) → IfSome (V.shown view.old name.now) (λ file. is_some file ≡ true) }
    ensures quiet { OnOk result (Quiet (seen_by V.shown V.absent V.ends V.faults view.old view.new name.now)) }
    ensures fault { IfErr result (λ e. FaultCause (reading_end budget pipe.old) (seen_by V.shown V.absent V.ends V.faults view.old view.new name.now) pipe.new e) }
    ensures asked { Asks V.asked view.old view.new (LooksOnce name.now (fed_count pipe.old) (fed_count pipe.new) result) }
    ensures same { (other : List ℕ) → V.shown view.new other ≡ V.shown view.old other }
{
    look(view, name)?;
    read_on(view, name, pipe, piece, budget)
}

/// The next packet of the file: of the bytes that were read, or else of those that come.
pub(crate) fn seek<V: View>(
    view: &mut V,
    name: &Name,
    pipe: &mut PcapngPipe,
    piece: &mut [u8],
    budget: u64,
) -> Result<Found, FollowFault>
    requires budget { 1 ≤ budget }
    requires piece { length piece.old ≡ 65536 }
    requires fits { fed_count pipe.old ≤ 2 ^ 62 }
    ensures reads { Reads (V.shown view.old name.now) pipe.old pipe.new (packets_found result) }
    ensures found { IfOk result (λ found. FoundIs pipe.new found) }
    ensures more { (result ≡ Ok Found.More) → fed_count pipe.new ≡ reading_end budget pipe.old }
    ensures most { fed_count pipe.new ≤ reading_end budget pipe.old }
    ensures there { ((fed_count pipe.old < fed_count pipe.new) ⊎ IsBehind result) → IfSome (V.shown view.old name.now) (λ file. is_some file ≡ true) }
    ensures looks { (view.new ≡ view.old) ⊎ AllGiven pipe.old IsOpen }
    ensures quiet { OnOk result (Quiet (seen_by V.shown V.absent V.ends V.faults view.old view.new name.now)) }
    ensures fault { IfErr result (λ e. FaultCause (reading_end budget pipe.old) (seen_by V.shown V.absent V.ends V.faults view.old view.new name.now) pipe.new e) }
    ensures asked { Asks V.asked view.old view.new (LooksOnce name.now (fed_count pipe.old) (fed_count pipe.new) result) }
    ensures same { (other : List ℕ) → V.shown view.new other ≡ V.shown view.old other }
{
    match next_packet(pipe)? {
        Found::More => {
            if pipe.fed() == MOST_READ {
                return Ok(Found::More);
            }
            look_and_read(view, name, pipe, piece, budget)
        }
        found => Ok(found),
    }
}

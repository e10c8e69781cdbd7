ghost use Rattle.std.specs.Prelude.{◌≡◌, ◌≤◌, ◌<◌, ◌^◌, ℕ, List, [], true, length, IfOk, IfErr, IfSome, OnOk, OnErr, Some};
ghost use Rattle.std.specs.Option.{option_copied};
ghost use Rattle.cap_base.specs.Effects.{bytes as file_bytes};
ghost use Rattle.cap_outside.specs.Causes.{Counts, HasCause};
ghost use Rattle.cap_outside.specs.Told.{Leads};
ghost use Rattle.mode_base.specs.Outlets.{DidFront};
ghost use Rattle.pcapng_grammar.specs.Files.{Grammatical};
ghost use Rattle.ring_join.specs.Whole.{WholeBlock, text};
ghost use Rattle.ring_join.specs.Joined.{beyond};
ghost use Rattle.ring_join.specs.Adding.{nothing_known, input_defect, first_difference, begin_with, AddIs, IsFile as IsFileFault};
ghost use Rattle.ring_join.specs.inner.Walking.{HasBlocks, AreWhole, Checks, IsInput, is_same_as};

use crate::fault::JoinFault;
use crate::outline::{Outline, outline_of};
use crate::runs::write_beyond;
use cap_base::{Failed, NoMemory, Octets};
use cap_outside::Outlet;
use mode_base::append_text;
use pcapng_grammar::{What, check_file};
use std::alloc::Global;
use std::marker::Model;

/// The most bytes of a file that is joined.
pub const MAX_INPUT_LEN: usize = 0x4000_0000;

/// The one section header that is written (draft-ietf-opsawg-pcapng, section 4.1).
const SECTION_HEADER: [u8; 28] = [
    0x0A, 0x0D, 0x0D, 0x0A, 0x1C, 0, 0, 0, 0x4D, 0x3C, 0x2B, 0x1A, 1, 0, 0, 0, 0xFF, 0xFF, 0xFF,
    0xFF, 0xFF, 0xFF, 0xFF, 0xFF, 0x1C, 0, 0, 0,
];

/// Checks that an input is a file of at most 2^30 bytes.
fn check_input(alloc: Global, file: &[u8]) -> Result<(), JoinFault>
    ensures checks { Checks result (input_defect file.now) }
    ensures input { OnOk result (IsInput file.now) }
{
    if file.len() > MAX_INPUT_LEN {
        return Err(JoinFault::Bad {
            what: What::TooLong,
            at: MAX_INPUT_LEN as u64,
        });
    }
    let _facts = check_file(alloc, file)?;
    Ok(())
}

/// Whether a description is there, and is the known one.
fn is_same(known: &Octets, found: Option<&Octets>) -> bool
    ensures { result ≡ is_same_as known.now (option_copied found.entry) }
{
    match found {
        Some(found) => known.as_slice() == found.as_slice(),
        None => false,
    }
}

/// The number of the first description that isn't the known one.
fn first_difference(known: &[Octets], found: &[Octets]) -> Option<usize>
    ensures first { result ≡ first_difference known.now found.now }
    ensures within { IfSome result (λ n. n ≤ length found.now) }
{
    'numbers: for (number, known) in known.iter().enumerate() {
        if !is_same(known, found.get(number)) {
            return Some(number);
        }
    }
    None
}

/// Before the first input, adds the section header to the current file.
fn write_section<L: Outlet>(outlet: &mut L, begun: bool) -> Result<(), Failed>
    requires current { L.has_file outlet.old ≡ true }
    ensures ok { OnOk result (Leads L.stands_for outlet.old outlet.new (file_bytes (text (begin_with begun [])))) }
    ensures err { OnErr result (DidFront L.stands_for outlet.old outlet.new (file_bytes (text (begin_with begun [])))) }
    ensures file { L.has_file outlet.new ≡ true }
    ensures cause { HasCause (L.file_faults outlet.old) (L.file_faults outlet.new) result }
    ensures uncounted { OnOk result (L.file_faults outlet.new ≡ L.file_faults outlet.old) }
    ensures other { L.say_faults outlet.new ≡ L.say_faults outlet.old }
{
    if begun {
        return Ok(());
    }
    append_text(outlet, &SECTION_HEADER)
}

/// Adds to the current file what an input adds: before the first one the section header.
fn write_addition<L: Outlet>(
    outlet: &mut L,
    begun: bool,
    known: usize,
    file: &[u8],
) -> Result<(), Failed>
    requires current { L.has_file outlet.old ≡ true }
    requires blocks { HasBlocks file.now }
    ensures ok { OnOk result ((blocks : List WholeBlock) → AreWhole file.now blocks → Leads L.stands_for outlet.old outlet.new (file_bytes (text (begin_with begun (beyond known blocks))))) }
    ensures err { OnErr result ((blocks : List WholeBlock) → AreWhole file.now blocks → DidFront L.stands_for outlet.old outlet.new (file_bytes (text (begin_with begun (beyond known blocks))))) }
    ensures file { L.has_file outlet.new ≡ true }
    ensures cause { HasCause (L.file_faults outlet.old) (L.file_faults outlet.new) result }
    ensures uncounted { OnOk result (L.file_faults outlet.new ≡ L.file_faults outlet.old) }
    ensures other { L.say_faults outlet.new ≡ L.say_faults outlet.old }
{
    write_section(outlet, begun)?;
    write_beyond(outlet, known, file)
}

/// Joins files into the current file of an outlet, one after another. In a contract it is what it knows of the last file
/// that was added.
#[derive(Drop)]
pub struct Joiner {
    alloc: Global,
    begun: bool,
    descriptions: Vec<Octets>,
    statistics: Octets,
}

impl Model for Joiner {
    ghost use Rattle.ring_join.specs.Adding.{Known};

    ghost Value = { Known };

    ghost view = { λ j. record { begun = j.begun; descriptions = j.descriptions.items; statistics = j.statistics } };
}

impl Joiner {
    /// A joiner to which no file was added. It takes no memory.
    pub fn new(alloc: Global) -> Joiner
        ensures { result ≡ nothing_known }
    {
        Joiner {
            alloc,
            begun: false,
            descriptions: Vec::new(alloc),
            statistics: Octets::new(alloc),
        }
    }

    /// Adds a file (draft-ietf-opsawg-pcapng, as this program writes it), of at most 2^30 bytes: before the first one the
    /// section header, then its interface descriptions beyond those of the file before it, and its packets, as they stand
    /// and in its order. It answers how many packets there are. A file must be current.
    ///
    /// - `Bad` exactly where the bytes have a defect: the first one, and the place of its block.
    /// - `Differ` exactly where they have none, and the descriptions don't begin with those of the file before it: the
    ///   number of the first that is another one, or is missing.
    /// - `File` exactly where a call of the outlet failed. The first bytes, and not all, were added then, and the joiner is
    ///   as if all were.
    /// - `NoMemory` where memory ran out.
    ///
    /// Behind an answer other than `File` nothing was added, and the joiner is unchanged.
    pub fn add<L: Outlet>(&mut self, outlet: &mut L, file: &[u8]) -> Result<u64, JoinFault>
        requires { L.has_file outlet.old ≡ true }
        ensures answer { AddIs L.stands_for self.old file.now outlet.old outlet.new self.new result }
        ensures few { IfOk result (λ packets. packets ≤ length file.now) }
        ensures cause { Counts (IsFileFault result) (L.file_faults outlet.old) (L.file_faults outlet.new) }
        ensures file { L.has_file outlet.new ≡ true }
        ensures unsaid { L.say_faults outlet.new ≡ L.say_faults outlet.old }
    {
        check_input(self.alloc, file)?;
        let outline = outline_of(self.alloc, file)?;
        let known = self.descriptions.as_slice();
        if let Some(number) = first_difference(known, outline.descriptions()) {
            return Err(JoinFault::Differ {
                number: number as u16,
            });
        }
        let packets = outline.packets();
        let begun = self.begun;
        let known = known.len();
        self.keep(outline);
        write_addition(outlet, begun, known, file)?;
        Ok(packets)
    }

    /// Knows what a file has from now on.
    fn keep(&mut self, outline: Outline)
        ensures begun { self.new.begun ≡ true }
        ensures descriptions { self.new.descriptions ≡ outline.descriptions }
        ensures statistics { self.new.statistics ≡ outline.statistics }
    {
        let (descriptions, statistics) = outline.into_parts();
        self.begun = true;
        self.descriptions = descriptions;
        self.statistics = statistics;
    }

    /// Adds the statistics of the last file. A file must be current, and a file have been added. It takes no memory.
    ///
    /// `File` exactly where a call of the outlet failed. The first bytes, and not all, were added then.
    pub fn end<L: Outlet>(&mut self, outlet: &mut L) -> Result<(), JoinFault>
        requires current { L.has_file outlet.old ≡ true }
        requires begun { self.old.begun ≡ true }
        ensures ok { OnOk result (Leads L.stands_for outlet.old outlet.new (file_bytes self.old.statistics)) }
        ensures err { OnErr result (DidFront L.stands_for outlet.old outlet.new (file_bytes self.old.statistics)) }
        ensures fault { IfErr result (λ e. e ≡ JoinFault.File) }
        ensures same { self.new ≡ self.old }
        ensures cause { Counts (IsFileFault result) (L.file_faults outlet.old) (L.file_faults outlet.new) }
        ensures file { L.has_file outlet.new ≡ true }
        ensures unsaid { L.say_faults outlet.new ≡ L.say_faults outlet.old }
    {
        append_text(outlet, self.statistics.as_slice())?;
        Ok(())
    }
}

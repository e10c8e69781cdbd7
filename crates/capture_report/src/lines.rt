ghost use Rattle.std.specs.Prelude.{◌≡◌, ◌++◌, IfOk, codes, decimal, string_bytes};
ghost use Rattle.capture_report.specs.Report.{counts_text, interface_line as interface_line_text, source_line as source_line_text, output_line as output_line_text, files_line as files_line_text};

use crate::texts::{joined, octets_of};
use crate::words::words_of_ending;
use cap_base::{Counts, How, Iface, Name, NoMemory, Octets};
use std::alloc::{AllocError, Global};

/// An interface's counts.
fn text_of_counts(alloc: Global, counts: Counts) -> Result<String, AllocError>
    ensures { IfOk result (λ s. string_bytes s ≡ counts_text counts) }
{
    let Counts {
        recv,
        drop,
        flush,
        written,
    } = counts;
    format!(in alloc; ": received {recv} written {written} dropped {drop} flushed {flush}\n")
}

/// An interface's number.
fn text_of_number(alloc: Global, number: usize) -> Result<String, AllocError>
    ensures { IfOk result (λ s. string_bytes s ≡ codes "interface " ++ (decimal number ++ codes " ")) }
{
    format!(in alloc; "interface {number} ")
}

/// The line of an interface: its number, its name octet by octet, and its counts.
#[tactic(auto, using(crate::proofs::Joined::line_is))]
pub fn interface_line(
    alloc: Global,
    number: usize,
    iface: &Iface,
    counts: Counts,
) -> Result<Octets, NoMemory>
    ensures { IfOk result (λ o. o ≡ interface_line_text number iface.now counts) }
{
    let front = text_of_number(alloc, number)?;
    let behind = text_of_counts(alloc, counts)?;
    joined(
        alloc,
        front.as_str(),
        iface.name.as_slice(),
        behind.as_str(),
    )
}

/// The line of a source that ended early: its name, and how it ended in words.
#[tactic(auto, unfolding(crate::specs::Report::source_line))]
pub fn source_line(alloc: Global, name: &Name, how: How) -> Result<Octets, NoMemory>
    ensures { IfOk result (λ o. o ≡ source_line_text name.now how) }
{
    let name = name.as_text();
    let words = words_of_ending(alloc, how)?;
    let line = format!(in alloc; "source {name}: {words}\n")?;
    octets_of(alloc, line.as_str())
}

/// The line of an output on which a call failed.
#[tactic(auto, unfolding(crate::specs::Report::output_line))]
pub fn output_line(alloc: Global) -> Result<Octets, NoMemory>
    ensures { IfOk result (λ o. o ≡ output_line_text) }
{
    octets_of(alloc, "output: write failed\n")
}

/// The last line: how many files were created.
#[tactic(auto, unfolding(crate::specs::Report::files_line))]
pub fn files_line(alloc: Global, files: u64) -> Result<Octets, NoMemory>
    ensures { IfOk result (λ o. o ≡ files_line_text files) }
{
    let line = format!(in alloc; "files {files}\n")?;
    octets_of(alloc, line.as_str())
}

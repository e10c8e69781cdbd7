ghost use Rattle.std.specs.Prelude.{◌≡◌, IfOk, string_bytes};
ghost use Rattle.join_mode.specs.Lines.{defect_line, difference_line, lines_with};

use cap_base::Name;
use pcapng_grammar::What;
use std::alloc::{AllocError, Global};

/// The line for the first defect of an input, and its place.
#[tactic(auto, unfolding(crate::specs::Lines::defect_line))]
pub fn line_of_defect(alloc: Global, what: What, at: u64, name: &Name) -> Result<String, AllocError>
    ensures { IfOk result (λ s. string_bytes s ≡ defect_line what at name.now) }
{
    let what = what.word();
    let name = name.as_text();
    format!(in alloc; "fault {what} at {at} in {name}\n")
}

/// The line for an input's first description that isn't the one of the input before.
#[tactic(auto, unfolding(crate::specs::Lines::difference_line))]
pub fn line_of_difference(alloc: Global, number: u16, name: &Name) -> Result<String, AllocError>
    ensures { IfOk result (λ s. string_bytes s ≡ difference_line number name.now) }
{
    let name = name.as_text();
    format!(in alloc; "fault differ at description {number} in {name}\n")
}

/// The lines for so many files that were joined, with so many packets.
#[tactic(auto, unfolding(crate::specs::Lines::lines_with))]
pub fn lines_of(alloc: Global, files: usize, packets: u64) -> Result<String, AllocError>
    ensures { IfOk result (λ s. string_bytes s ≡ lines_with files packets) }
{
    format!(in alloc; "files {files}\npackets {packets}\n")
}

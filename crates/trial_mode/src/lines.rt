ghost use Rattle.std.specs.Prelude.{◌≡◌, string_bytes, IfOk};
ghost use Rattle.trial_mode.specs.Lines.{lines_with};

use std::alloc::{AllocError, Global};

/// The lines of a trial.
#[tactic(auto, unfolding(crate::specs::Lines::lines_with))]
pub fn lines_of(
    alloc: Global,
    sources: u8,
    packets: u64,
    accounted: u64,
    files: usize,
    checked: u8,
) -> Result<String, AllocError>
    ensures { IfOk result (λ s. string_bytes s ≡ lines_with sources packets accounted files checked) }
{
    format!(in alloc;
        "sources {sources}\npackets {packets}\naccounted {accounted}\nfiles {files}\nchecked {checked}\n"
    )
}

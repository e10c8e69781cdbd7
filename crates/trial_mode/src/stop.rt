ghost use Rattle.std.specs.Prelude.{◌≡◌};
ghost use Rattle.trial_mode.specs.declared.stop.Stop.TheVariants.{NoMemory as WasStarved};

use cap_base::NoMemory;
use std::alloc::AllocError;

/// Why a trial ended before its lines were written.
#[derive(Clone, Copy, Debug)]
pub enum Stop {
    /// The lines couldn't be written whole.
    Unwritten,
    /// Memory ran out.
    NoMemory,
    /// The turns of the capture were spent.
    Worn,
}

impl From<NoMemory> for Stop {
    ghost from_gives = { λ _ e. e ≡ WasStarved };

    fn from(_e: NoMemory) -> Stop {
        Stop::NoMemory
    }
}

impl From<AllocError> for Stop {
    ghost from_gives = { λ _ e. e ≡ WasStarved };

    fn from(_e: AllocError) -> Stop {
        Stop::NoMemory
    }
}

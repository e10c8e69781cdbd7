use cap_base::{Name, Names, NoMemory, Settings};
use std::alloc::{AllocError, AllocFailed};

/// What the words ask for.
#[derive(Debug, Drop)]
pub enum Mode {
    /// A capture with these settings: durations are in nanoseconds, sizes of files in bytes.
    Capture(Settings),
    /// The same of one source, into classic pcap files.
    Classic(Settings),
    /// Reads a capture's messages from this source, and the files that they name.
    Follow(Name),
    /// Checks that the file of this name is one that this program writes.
    Check(Name),
    /// Writes the streams of the generator into files.
    Make {
        /// The number from which the streams are made, at most 10^18.
        start: u64,
        /// How many streams there are, from 1 to 64.
        sources: u8,
        /// How many packets the streams have together, from 1 to 1,000,000.
        packets: u64,
        /// What the files' names begin with.
        name: Name,
    },
    /// Captures the streams of the generator in memory.
    Trial {
        /// The number from which the streams are made, at most 10^18.
        start: u64,
        /// How many streams there are, from 1 to 64.
        sources: u8,
        /// How many packets the streams have together, from 1 to 1,000,000.
        packets: u64,
    },
    /// Copies a pcapng source into one file, with the blocks that are passed on.
    Pass {
        /// The source.
        name: Name,
        /// The file that is written.
        out: Name,
    },
    /// Follows a capture, and publishes its totals to threads that read them meanwhile.
    Watch {
        /// The source of the capture's messages.
        name: Name,
        /// How many threads read the totals, from 1 to 64.
        readers: u32,
    },
    /// Makes one output file of several, as of those of a ring.
    JoinFiles {
        /// The file that is written.
        out: Name,
        /// The files that are joined, from 1 to 1,000, in order.
        names: Names,
    },
}

/// Why words are refused. Each but `NoMemory` is a defect that the words have; where they have several, any one is
/// answered.
#[derive(Clone, Copy, Debug, PartialEq, Eq)]
pub enum WordFault {
    /// A word is no option and no argument of the mode, as `-h`, `--version` or a second NAME.
    Unknown,
    /// A required word is missing (`-i` or `-w` of a capture, an argument of another mode), or the value of an option
    /// that is the last word.
    Missing,
    /// A value breaks its spelling or its range, wherever it stands, or the kind of `-a` or `-b` before its `:` is
    /// unknown.
    Value,
    /// `-b files:` or `-a files:` without a `-b` that begins a next file; `-a filesize:` with any `-b`; `-w -`, which is
    /// standard output, with any `-b`; `-P` with `-n` or with more than one `-i`; or an output that would overwrite what is
    /// read, since it has the name of an input: without `-b` the last `-w` that of an `-i`, OUT that of NAME in `pass`, or of
    /// a file that is joined. `-` is no such name, as it stands for standard input and standard output.
    Conflict,
    /// More than 64 `-i`, or more than 1,000 files that are joined.
    TooMany,
    /// Memory ran out.
    NoMemory,
}

impl From<NoMemory> for WordFault {
    ghost use Rattle.std.specs.Prelude.{◌≡◌};
    ghost use Rattle.capture_options.specs.declared.mode.WordFault.TheVariants as fault;

    ghost from_gives = { λ e r. r ≡ fault.NoMemory };

    fn from(_e: NoMemory) -> WordFault {
        WordFault::NoMemory
    }
}

impl From<AllocError> for WordFault {
    ghost use Rattle.std.specs.Prelude.{◌≡◌};
    ghost use Rattle.capture_options.specs.declared.mode.WordFault.TheVariants as fault;

    ghost from_gives = { λ e r. r ≡ fault.NoMemory };

    fn from(_e: AllocError) -> WordFault {
        WordFault::NoMemory
    }
}

impl<T: Drop> From<AllocFailed<T>> for WordFault {
    ghost use Rattle.std.specs.Prelude.{◌≡◌};
    ghost use Rattle.capture_options.specs.declared.mode.WordFault.TheVariants as fault;

    ghost from_gives = { λ e r. r ≡ fault.NoMemory };

    fn from(_e: AllocFailed<T>) -> WordFault {
        WordFault::NoMemory
    }
}

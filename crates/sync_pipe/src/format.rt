//! The constants of the format, which the reader and the writer share.

/// The type byte of a message on a new file.
pub(crate) const FILE: u8 = b'F';

/// The type byte of a message on packets of the file.
pub(crate) const PACKETS: u8 = b'P';

/// The type byte of a message on dropped packets.
pub(crate) const DROPS: u8 = b'D';

/// The type byte of a message on a failure, and of the two messages inside it.
pub(crate) const ERROR: u8 = b'E';

/// The bytes before a message's body: its type, and the body's length.
pub(crate) const HEAD: usize = 4;

/// The most bytes of a body.
pub(crate) const MOST_BODY: usize = 65_536;

/// The most packets of one message.
pub(crate) const MOST_PACKETS: u64 = 1_000_000_000_000;

/// The most digits of a count of packets.
pub(crate) const PACKETS_DIGITS: usize = 13;

/// The most dropped packets of one message, 2^62.
pub(crate) const MOST_DROPS: u64 = 4_611_686_018_427_387_904;

/// The most digits of a count of dropped packets.
pub(crate) const DROPS_DIGITS: usize = 19;

/// The byte between a count of dropped packets and the interface's name.
pub(crate) const COLON: u8 = b':';

// The numbers of an output file's blocks (draft-ietf-opsawg-pcapng).

/// Section header block, section 4.1.
pub const SECTION_HEADER_BLOCK: u32 = 0x0A0D_0D0A;

/// Interface description block, section 4.2.
pub const INTERFACE_DESCRIPTION_BLOCK: u32 = 1;

/// Interface statistics block, section 4.6.
pub const INTERFACE_STATISTICS_BLOCK: u32 = 5;

/// Enhanced packet block, section 4.3.
pub const ENHANCED_PACKET_BLOCK: u32 = 6;

/// The byte-order magic of a section header (section 4.1).
pub const BYTE_ORDER_MAGIC: u32 = 0x1A2B_3C4D;

/// The bytes of a block round its body: its type and its two lengths (section 3.1).
pub const FRAME_LEN: usize = 12;

/// The bytes of a block's second length.
pub const TRAILER_LEN: usize = 4;

/// The bytes of the one section header that is written.
pub const SECTION_HEADER_LEN: usize = 28;

/// The bytes of an interface description without options.
pub const LEAST_DESCRIPTION_LEN: usize = 20;

/// The bytes of an enhanced packet without data and options.
pub const LEAST_PACKET_LEN: usize = 32;

/// The bytes of the interface statistics that are written.
pub const STATISTICS_LEN: usize = 64;

/// The code and the length, 8, of each option of interface statistics, as one number.
pub const ISB_IFRECV_HEADER: u32 = 0x0008_0004;

pub const ISB_IFDROP_HEADER: u32 = 0x0008_0005;

pub const ISB_USRDELIV_HEADER: u32 = 0x0008_0008;

/// opt_endofopt, with its length 0, as one number (section 3.5.1).
pub const END_OF_OPTIONS: u32 = 0;

/// The bytes of an option before its value (section 3.5).
pub const OPTION_HEADER_LEN: usize = 4;

/// The most bytes of a file.
pub const MAX_FILE_LEN: usize = 0x1_0000_0000;

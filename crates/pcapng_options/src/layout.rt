// Every option (draft-ietf-opsawg-pcapng, section 3.5):
//
//    0   option type u16
//    2   option length u16, of the value alone
//    4   option value, padded to a multiple of 4 bytes

/// Where the length of an option's value stands.
pub const LENGTH_AT: usize = 2;

/// The bytes of an option before its value (draft-ietf-opsawg-pcapng, section 3.5).
pub const OPTION_HEADER_LEN: usize = 4;

/// The type of the option that ends a list (draft-ietf-opsawg-pcapng, section 3.5.1).
pub const OPT_ENDOFOPT: u16 = 0;

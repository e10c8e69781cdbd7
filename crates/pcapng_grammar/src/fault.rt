/// What the first defect of a file is. Of the defects of one block the first in this order counts: `Short` of less than 12
/// bytes, `NoSection` or `SecondSection`, `Order`, `Length`, `Short`, `Trailer`, `Kind`, `Body`, `Interface`, `Late`,
/// `Statistics`.
#[derive(Clone, Copy, Debug, PartialEq, Eq)]
pub enum What {
    /// The bytes end before a block does.
    Short,
    /// The file doesn't begin with a section header (draft-ietf-opsawg-pcapng, section 4.1).
    NoSection,
    /// A section header follows another block.
    SecondSection,
    /// The byte-order magic isn't the little-endian one.
    Order,
    /// A block total length is below 12, no multiple of 4, or above 16,777,216 (section 3.1).
    Length,
    /// The second length of a block is another one than the first.
    Trailer,
    /// A block of a type that isn't written: other than a section header, 1, 5 or 6.
    Kind,
    /// The bytes between the lengths aren't such as are written for that type.
    Body,
    /// The number of a packet or of statistics isn't that of an interface described before; or a 257th description.
    Interface,
    /// A description or a packet follows a statistics block.
    Late,
    /// The number of a statistics block isn't the count of the statistics blocks before it.
    Statistics,
    /// The file ends with fewer statistics blocks than descriptions.
    Missing,
    /// The file is longer than 2^32 bytes.
    TooLong,
}

impl What {
    ghost use Rattle.std.specs.Prelude.{◌≡◌};
    ghost use Rattle.pcapng_grammar.specs.Words.{defect_word};

    /// The word for it, as it is printed: `short`, `nosection`, `secondsection`, `order`, `length`, `trailer`, `kind`,
    /// `body`, `interface`, `late`, `statistics`, `missing` or `toolong`.
    pub fn word(self) -> &'static str
        ensures { result.now ≡ defect_word self }
    {
        match self {
            What::Short => "short",
            What::NoSection => "nosection",
            What::SecondSection => "secondsection",
            What::Order => "order",
            What::Length => "length",
            What::Trailer => "trailer",
            What::Kind => "kind",
            What::Body => "body",
            What::Interface => "interface",
            What::Late => "late",
            What::Statistics => "statistics",
            What::Missing => "missing",
            What::TooLong => "toolong",
        }
    }
}

/// Why a file isn't accepted.
#[derive(Clone, Copy, Debug, PartialEq, Eq)]
pub enum CheckFault {
    /// The first defect, and the place of the block in which it stands.
    Bad { what: What, at: u64 },
    /// Memory ran out.
    NoMemory,
}

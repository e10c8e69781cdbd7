//! The laws of the texts that are made. The call does nothing; its clauses are the laws.
ghost use Rattle.cap_make.specs.Laws.{EvenIsClassic, OddIsPcapng};

/// The text of an even source is read back as classic pcap, that of an odd one as pcapng: its events are one interface and
/// the packets of the source, in order, and it ends cleanly.
pub fn made_is_read()
    ensures even { EvenIsClassic }
    ensures odd { OddIsPcapng }
{}

ghost use Rattle.std.specs.Prelude.{◌≡◌};
ghost use Rattle.capture_report.specs.Endings.{is_early as ended_early, ending_of as first_ending};

use cap_base::How;

/// How a source ended.
#[derive(Clone, Copy, Debug, PartialEq, Eq)]
pub struct SourceEnd {
    /// The source's number, counted from 0.
    pub source: u8,
    /// How it ended.
    pub how: How,
}

/// Whether a source ended early: otherwise than at the end of its input or by a stop.
pub fn is_early(how: How) -> bool
    ensures { result ≡ ended_early how }
{
    !matches!(how, How::Clean | How::Stopped)
}

/// The first ending of a source; `None` exactly where none is there.
pub fn ending_of(ends: &[SourceEnd], source: usize) -> Option<How>
    ensures { result ≡ first_ending source ends.now }
{
    'ended: for end in ends {
        if end.source as usize == source {
            return Some(end.how);
        }
    }
    None
}

ghost use Rattle.std.specs.Prelude.{◌≡◌, ◌≤◌, ◌<◌, ◌^◌, [], true, length, IfOk, IfErr, OnOk};
ghost use Rattle.cap_outside.specs.Told.{Tells};
ghost use Rattle.mode_base.specs.Sources.{whole_of};
ghost use Rattle.join_mode.specs.inner.Parts.{JoinsOne, StopsAtOne};

use crate::stop::Stop;
use cap_base::Octets;
use cap_outside::{Outlet, Source};
use mode_base::read_content;
use ring_join::{Joiner, MAX_INPUT_LEN};

/// Reads a source to its end, and joins its file.
pub fn join_source<S: Source, L: Outlet>(
    joiner: &mut Joiner,
    piece: &mut [u8],
    content: &mut Octets,
    source: &mut S,
    outlet: &mut L,
) -> Result<u64, Stop>
    requires piece { length piece.old ≡ 65536 }
    requires taken { Tells (S.taken source.old) [] }
    requires no_end { S.ends source.old ≡ 0 }
    requires no_fault { S.faults source.old ≡ 0 }
    requires file { L.has_file outlet.old ≡ true }
    ensures ok { IfOk result (λ count. JoinsOne S.Source L.Outlet joiner.old joiner.new source.new outlet.old outlet.new count) }
    ensures few { IfOk result (λ count. count ≤ 2 ^ 30) }
    ensures stopped { IfErr result (λ why. StopsAtOne S.Source L.Outlet joiner.old joiner.new source.new outlet.old outlet.new why) }
    ensures file { L.has_file outlet.new ≡ true }
    ensures files { OnOk result (L.file_faults outlet.new ≡ L.file_faults outlet.old) }
    ensures whole { whole_of (S.taken source.new) (S.left source.new) ≡ whole_of (S.taken source.old) (S.left source.old) }
    ensures other { L.say_faults outlet.new ≡ L.say_faults outlet.old }
{
    content.clear();
    read_content(MAX_INPUT_LEN, source, piece, content)?;
    Ok(joiner.add(outlet, content.as_slice())?)
}

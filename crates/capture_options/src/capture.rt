ghost use Rattle.std.specs.Prelude.{◌≡◌, count_by, IfSome, IfNone, Some, MatchOption, option_copied, true, false};
ghost use Rattle.std.specs.List.{list_any};
ghost use Rattle.capture_options.specs.Captures.{counts_files, counts_one_file, has_too_many, is_bad, is_conflict, is_dash, is_defect, is_lacking, is_classic, is_classic_in_vain, is_pcapng, is_ring, lacks_words, rings_in_vain, is_source, is_switch, is_overwritten, is_unknown, latest, output_in, overwrites_one, overwrites_source, sets};
ghost use Rattle.capture_options.specs.declared.mode.WordFault.TheVariants as fault;
ghost use Rattle.capture_options.specs.declared.given.Setting.TheVariants as setting;

use crate::given::{Given, Setting};
use crate::mode::WordFault;
use crate::numbers::{is_name, overwrites};
use crate::settings::{output, place};
use cap_base::MAX_SOURCES;

fn is_unknown(given: &Given) -> bool
    ensures { result ≡ is_unknown given.now }
{
    matches!(given, Given::Unknown)
}

fn is_lacking(given: &Given) -> bool
    ensures { result ≡ is_lacking given.now }
{
    matches!(given, Given::Lacking)
}

fn is_source(given: &Given) -> bool
    ensures { result ≡ is_source given.now }
{
    matches!(given, Given::Source(_))
}

fn is_pcapng(given: &Given) -> bool
    ensures { result ≡ is_pcapng given.now }
{
    matches!(given, Given::Pcapng)
}

fn is_classic(given: &Given) -> bool
    ensures { result ≡ is_classic given.now }
{
    matches!(given, Given::Classic)
}

/// Whether a value breaks its spelling or its range, or has an unknown kind.
fn is_bad(given: &Given) -> bool
    ensures { result ≡ is_bad given.now }
{
    match given {
        Given::Source(name) | Given::Output(name) => !is_name(name.as_text()),
        Given::Number(_, value) => value.is_none(),
        Given::Keep(value) | Given::Snap(value) => value.is_none(),
        Given::UnknownAutostop | Given::UnknownRing => true,
        Given::Sync
        | Given::Pcapng
        | Given::Classic
        | Given::Ignored
        | Given::Unknown
        | Given::Lacking => false,
    }
}

/// Whether a word gives a number to this setting.
fn sets(setting: Setting, given: &Given) -> bool
    ensures { result ≡ sets setting given.now }
{
    match given {
        Given::Number(other, _) => place(*other) == place(setting),
        _ => false,
    }
}

/// Whether a word is a `-b` that begins a next file.
fn is_switch(given: &Given) -> bool
    ensures { result ≡ is_switch given.now }
{
    match given {
        Given::Number(setting, _) => 4 < place(*setting) && place(*setting) < 9,
        _ => false,
    }
}

/// Whether a word is any `-b`.
fn is_ring(given: &Given) -> bool
    ensures { result ≡ is_ring given.now }
{
    matches!(given, Given::Keep(_) | Given::UnknownRing) || is_switch(given)
}

/// Whether a word is `-b files:` or `-a files:`.
fn counts_files(given: &Given) -> bool
    ensures { result ≡ counts_files given.now }
{
    matches!(given, Given::Keep(_)) || sets(Setting::StopFiles, given)
}

/// Whether the output is standard output.
fn goes_to_standard_output(given: &[Given]) -> bool
    ensures { result ≡ is_dash (latest output_in given.now) }
{
    match output(given) {
        Some(name) => name.as_text() == "-",
        None => false,
    }
}

fn has_unknown(given: &[Given]) -> bool
    ensures { result ≡ list_any is_unknown given.now }
{
    given.iter().any(|one| is_unknown(one))
}

fn has_lacking(given: &[Given]) -> bool
    ensures { result ≡ list_any is_lacking given.now }
{
    given.iter().any(|one| is_lacking(one))
}

fn has_source(given: &[Given]) -> bool
    ensures { result ≡ list_any is_source given.now }
{
    given.iter().any(|one| is_source(one))
}

fn has_bad(given: &[Given]) -> bool
    ensures { result ≡ list_any is_bad given.now }
{
    given.iter().any(|one| is_bad(one))
}

fn has_counted_files(given: &[Given]) -> bool
    ensures { result ≡ list_any counts_files given.now }
{
    given.iter().any(|one| counts_files(one))
}

fn has_switch(given: &[Given]) -> bool
    ensures { result ≡ list_any is_switch given.now }
{
    given.iter().any(|one| is_switch(one))
}

fn has_ring(given: &[Given]) -> bool
    ensures { result ≡ list_any is_ring given.now }
{
    given.iter().any(|one| is_ring(one))
}

fn has_filesize(given: &[Given]) -> bool
    ensures { result ≡ list_any (sets setting.StopFilesize) given.now }
{
    given.iter().any(|one| sets(Setting::StopFilesize, one))
}

fn has_pcapng(given: &[Given]) -> bool
    ensures { result ≡ list_any is_pcapng given.now }
{
    given.iter().any(|one| is_pcapng(one))
}

/// Whether the files are classic.
pub(crate) fn has_classic(given: &[Given]) -> bool
    ensures { result ≡ list_any is_classic given.now }
{
    given.iter().any(|one| is_classic(one))
}

/// How many sources there are.
fn source_count(given: &[Given]) -> usize
    ensures { result ≡ count_by is_source given.now }
{
    given.iter().filter(|one| is_source(one)).count()
}

/// Whether a required word or an option's value is missing.
fn lacks_words(given: &[Given]) -> bool
    ensures { result ≡ lacks_words given.now }
{
    has_lacking(given) || (!has_source(given) || output(given).is_none())
}

/// Whether files are counted, and none begins anew.
fn counts_one_file(given: &[Given]) -> bool
    ensures { result ≡ counts_one_file given.now }
{
    has_counted_files(given) && !has_switch(given)
}

/// Whether there is a `-b` beside a file's size that ends the capture, or beside standard output.
fn rings_in_vain(given: &[Given]) -> bool
    ensures { result ≡ rings_in_vain given.now }
{
    has_ring(given) && (has_filesize(given) || goes_to_standard_output(given))
}

/// Whether classic files are asked for beside pcapng, or of several sources.
fn is_classic_in_vain(given: &[Given]) -> bool
    ensures { result ≡ is_classic_in_vain given.now }
{
    has_classic(given) && (has_pcapng(given) || 1 < source_count(given))
}

/// Whether a word is a source that an output of this name would overwrite.
fn is_overwritten(output: &str, given: &Given) -> bool
    ensures { result ≡ is_overwritten output.now given.now }
{
    match given {
        Given::Source(name) => overwrites(output, name.as_text()),
        _ => false,
    }
}

/// Whether an output of this name would overwrite a source.
fn has_overwritten(output: &str, given: &[Given]) -> bool
    ensures { result ≡ list_any (is_overwritten output.now) given.now }
{
    for one in given {
        if is_overwritten(output, one) {
            return true;
        }
    }
    false
}

/// Whether the output would overwrite a source, were it one file.
fn overwrites_one(given: &[Given]) -> bool
    ensures { result ≡ overwrites_one given.now (latest output_in given.now) }
{
    match output(given) {
        Some(name) => has_overwritten(name.as_text(), given),
        None => false,
    }
}

/// Whether the output is one file, and would overwrite a source.
fn overwrites_source(given: &[Given]) -> bool
    ensures { result ≡ overwrites_source given.now }
{
    !has_ring(given) && overwrites_one(given)
}

/// Whether capture words have options that can't stand together.
fn is_conflict(given: &[Given]) -> bool
    ensures { result ≡ is_conflict given.now }
{
    counts_one_file(given)
        || (rings_in_vain(given) || (is_classic_in_vain(given) || overwrites_source(given)))
}

/// Whether there are more than 64 sources.
fn has_too_many(given: &[Given]) -> bool
    ensures { result ≡ has_too_many given.now }
{
    MAX_SOURCES < source_count(given)
}

/// A defect of what capture words say; `None` where they have none.
pub(crate) fn defect(given: &[Given]) -> Option<WordFault>
    ensures some { IfSome result (λ e. is_defect given.now e ≡ true) }
    ensures none { IfNone result ((e : WordFault) → is_defect given.now e ≡ false) }
{
    if has_unknown(given) {
        return Some(WordFault::Unknown);
    }
    if lacks_words(given) {
        return Some(WordFault::Missing);
    }
    if has_bad(given) {
        return Some(WordFault::Value);
    }
    if is_conflict(given) {
        return Some(WordFault::Conflict);
    }
    if has_too_many(given) {
        return Some(WordFault::TooMany);
    }
    None
}

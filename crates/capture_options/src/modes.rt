//! What the modes' words ask for, by what `clap` found in them.
ghost use Rattle.std.specs.Prelude.{◌≡◌, MatchOption, map, codes, false, not, true, unwrap_or};
ghost use Rattle.std.specs.List.{list_all, list_any};
ghost use Rattle.clap.specs.Walk.{rows_of};
ghost use Rattle.clap.specs.Matches.{found_of};
ghost use Rattle.capture_options.specs.Numbers.{is_name, overwrites};
ghost use Rattle.capture_options.specs.Arguments.{are_bad_numbers, check_mode, follow_mode, is_bad_file, is_bad_make, is_bad_watch, is_defect_of_copy, is_defect_of_files, is_defect_of_join, is_defect_of_pass, join_mode, make_mode, only_value, packets_in, pass_mode, sources_in, start_in, trial_mode, watch_mode, word_in};
ghost use Rattle.capture_options.specs.declared.mode.Mode.TheVariants as mode;
ghost use Rattle.capture_options.specs.inner.Answers.{IsAnswerBy, IsGoodOr};

use crate::arguments::word;
use crate::mode::{Mode, WordFault};
use crate::numbers::{is_name, number_between, overwrites};
use cap_base::{MAX_JOINED_FILES, MAX_READERS, MAX_SOURCES, Name, Names};
use clap::ArgMatches;
use std::alloc::Global;

/// The name that a text is.
fn name_of(alloc: Global, text: &str) -> Result<Name, WordFault>
    ensures { IsGoodOr (not (is_name text.now)) text.now result }
{
    if !is_name(text) {
        return Err(WordFault::Value);
    }
    Ok(Name::from_text(alloc, text)?)
}

/// The names that texts are.
fn names_of(alloc: Global, texts: &[&str]) -> Result<Names, WordFault>
    ensures { let found = map (λ t. t.now) texts.now in IsGoodOr (not (list_all is_name found)) found result }
{
    let mut names = Names::new(alloc);
    for text in texts {
        names.push(name_of(alloc, text)?)?;
    }
    Ok(names)
}

/// What `follow` asks for.
pub(crate) fn followed(alloc: Global, matches: &ArgMatches) -> Result<Mode, WordFault>
    ensures { let rows = rows_of (found_of matches.now) in IsAnswerBy (follow_mode rows) (only_value (is_bad_file rows)) result }
{
    Ok(Mode::Follow(name_of(alloc, word(matches, "NAME"))?))
}

/// What `check` asks for.
pub(crate) fn checked(alloc: Global, matches: &ArgMatches) -> Result<Mode, WordFault>
    ensures { let rows = rows_of (found_of matches.now) in IsAnswerBy (check_mode rows) (only_value (is_bad_file rows)) result }
{
    Ok(Mode::Check(name_of(alloc, word(matches, "NAME"))?))
}

/// The numbers that the words of `make` and `trial` have.
#[derive(Clone, Copy)]
struct Amounts {
    start: u64,
    sources: u8,
    packets: u64,
}

/// The numbers that `make` and `trial` got; `None` exactly where one of them is bad.
fn numbers(matches: &ArgMatches) -> Option<Amounts>
    ensures { let rows = rows_of (found_of matches.now) in MatchOption result (are_bad_numbers rows ≡ true)
        (λ n. (are_bad_numbers rows ≡ false)
        × (n.start ≡ unwrap_or (start_in (word_in rows (codes "START"))) 0)
        × (n.sources ≡ unwrap_or (sources_in (word_in rows (codes "SOURCES"))) 0)
        × (n.packets ≡ unwrap_or (packets_in (word_in rows (codes "PACKETS"))) 0)) }
{
    let start = number_between(0, 1_000_000_000_000_000_000, word(matches, "START"))?;
    let sources = number_between(1, MAX_SOURCES as u64, word(matches, "SOURCES"))? as u8;
    let packets = number_between(1, 1_000_000, word(matches, "PACKETS"))?;
    Some(Amounts {
        start,
        sources,
        packets,
    })
}

/// What `make` asks for.
pub(crate) fn made(alloc: Global, matches: &ArgMatches) -> Result<Mode, WordFault>
    ensures { let rows = rows_of (found_of matches.now) in IsAnswerBy (make_mode rows) (only_value (is_bad_make rows)) result }
{
    let Some(
        Amounts {
            start,
            sources,
            packets,
        },
    ) = numbers(matches)
    else {
        return Err(WordFault::Value);
    };
    Ok(Mode::Make {
        start,
        sources,
        packets,
        name: name_of(alloc, word(matches, "NAME"))?,
    })
}

/// What `trial` asks for.
pub(crate) fn tried(matches: &ArgMatches) -> Result<Mode, WordFault>
    ensures { let rows = rows_of (found_of matches.now) in IsAnswerBy (trial_mode rows) (only_value (are_bad_numbers rows)) result }
{
    let Some(
        Amounts {
            start,
            sources,
            packets,
        },
    ) = numbers(matches)
    else {
        return Err(WordFault::Value);
    };
    Ok(Mode::Trial {
        start,
        sources,
        packets,
    })
}

/// The source that is copied, and the file that is written.
fn copy_of(alloc: Global, name: &str, out: &str) -> Result<Mode, WordFault>
    ensures { IsAnswerBy (mode.Pass name.now out.now) (is_defect_of_copy name.now out.now) result }
{
    if overwrites(out, name) {
        return Err(WordFault::Conflict);
    }
    Ok(Mode::Pass {
        name: name_of(alloc, name)?,
        out: name_of(alloc, out)?,
    })
}

/// What `pass` asks for.
pub(crate) fn passed(alloc: Global, matches: &ArgMatches) -> Result<Mode, WordFault>
    ensures { let rows = rows_of (found_of matches.now) in IsAnswerBy (pass_mode rows) (is_defect_of_pass rows) result }
{
    copy_of(alloc, word(matches, "NAME"), word(matches, "OUT"))
}

/// What `watch` asks for.
pub(crate) fn watched(alloc: Global, matches: &ArgMatches) -> Result<Mode, WordFault>
    ensures { let rows = rows_of (found_of matches.now) in IsAnswerBy (watch_mode rows) (only_value (is_bad_watch rows)) result }
{
    let Some(readers) = number_between(1, MAX_READERS as u64, word(matches, "READERS")) else {
        return Err(WordFault::Value);
    };
    Ok(Mode::Watch {
        name: name_of(alloc, word(matches, "NAME"))?,
        readers: readers as u32,
    })
}

/// Whether the output would overwrite one of the files that are joined.
fn overwrites_one(out: &str, names: &[&str]) -> bool
    ensures { result ≡ list_any (overwrites out.now) (map (λ t. t.now) names.now) }
{
    for name in names {
        if overwrites(out, name) {
            return true;
        }
    }
    false
}

/// The files that are joined, and the one that is written.
fn files_of(alloc: Global, out: &str, names: &[&str]) -> Result<Mode, WordFault>
    ensures { let found = map (λ t. t.now) names.now in IsAnswerBy (mode.JoinFiles out.now found) (is_defect_of_files out.now found) result }
{
    if names.is_empty() {
        return Err(WordFault::Missing);
    }
    if MAX_JOINED_FILES < names.len() {
        return Err(WordFault::TooMany);
    }
    if overwrites_one(out, names) {
        return Err(WordFault::Conflict);
    }
    Ok(Mode::JoinFiles {
        out: name_of(alloc, out)?,
        names: names_of(alloc, names)?,
    })
}

/// What `join` asks for.
pub(crate) fn joined(alloc: Global, matches: &ArgMatches) -> Result<Mode, WordFault>
    ensures { let rows = rows_of (found_of matches.now) in IsAnswerBy (join_mode rows) (is_defect_of_join rows) result }
{
    match matches.get_strs("NAME") {
        Some(names) => files_of(alloc, word(matches, "OUT"), names),
        None => Err(WordFault::Missing),
    }
}

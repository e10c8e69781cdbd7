ghost use Rattle.std.specs.Prelude.{◌≡◌, ◌+◌, IfOk};
ghost use Rattle.cap_base.specs.Effects.{effects};
ghost use Rattle.cap_outside.specs.Files.{file_in};
ghost use Rattle.cap_outside.specs.SureOutlet.{done_of};
ghost use Rattle.trial_mode.specs.Sums.{files_in};
ghost use Rattle.trial_mode.specs.Streams.{output_name};
ghost use Rattle.trial_mode.specs.inner.Checked.{counted_in, IsCounted};

use cap_base::{Done, Name, NoMemory, Octets};
use cap_outside::SureOutlet;
use pcapng_grammar::{CheckFault, CountedList, check_file};
use std::alloc::Global;

/// How many files were created.
#[tactic(auto, using(crate::proofs::Countings::created_are_files))]
pub fn count_files(done: &[Done]) -> usize
    ensures { result ≡ files_in (effects done.now) }
{
    done.iter()
        .filter(|call| matches!(call, Done::Created(_)))
        .count()
}

/// The sum of two counts, where it can be counted.
fn sum_of(count: u64, more: u64) -> Result<u64, NoMemory>
    ensures { IfOk result (λ n. n ≡ count + more) }
{
    match count.checked_add(more) {
        Some(sum) => Ok(sum),
        None => Err(NoMemory),
    }
}

/// How many packets statistics account for: those that were written, and those that were dropped or flushed.
#[tactic(auto, using(crate::proofs::Countings::counted_more, crate::proofs::Countings::counted_there))]
fn sum_counted(counts: &CountedList) -> Result<u64, NoMemory>
    ensures { IfOk result (λ n. n ≡ counted_in counts.now) }
{
    let mut sum = 0u64;
    for at in 0..counts.len() {
        let Some(counted) = counts.get(at) else {
            unreachable!()
        };
        let accounted = sum_of(counted.delivered, counted.drop)?;
        sum = sum_of(sum, accounted)?;
    }
    Ok(sum)
}

/// How many packets the statistics of a file account for; `None` where it isn't grammatical, or is longer than the checker
/// reads.
fn check_text(alloc: Global, text: &[u8]) -> Result<Option<u64>, NoMemory>
    ensures { IfOk result (λ accounted. IsCounted (Some text.now) accounted) }
{
    match check_file(alloc, text) {
        Ok(facts) => Ok(Some(sum_counted(&facts.counts)?)),
        Err(CheckFault::Bad { .. }) => Ok(None),
        Err(CheckFault::NoMemory) => Err(NoMemory),
    }
}

/// How many packets the statistics of the output account for; `None` where there is no such file, or it isn't
/// grammatical.
pub fn check_output(alloc: Global, outlet: &SureOutlet) -> Result<Option<u64>, NoMemory>
    ensures { IfOk result (λ accounted. IsCounted (file_in output_name (effects (done_of outlet.now))) accounted) }
{
    let name = Name::from_text(alloc, "t")?;
    match outlet.file(&name)? {
        None => Ok(None),
        Some(text) => check_text(alloc, text.as_slice()),
    }
}

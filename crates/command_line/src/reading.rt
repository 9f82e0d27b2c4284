ghost use Rattle.std.specs.Prelude.{◌≡◌, ◌↔◌, ℕ, List, Err, None, true, false, IfOk, IsErr, IsTrue, IfSome, IfNone, codes, is_some};
ghost use Rattle.clap.specs.Walk.{first_of};
ghost use Rattle.command_line.specs.Asking.{Asks, IsCap, IsFile, IsMode, IsTask, IsUse, MeansSample, MeansTask, flagged_task, found_rows, goes_without_base, is_flagged, is_given, looks, name_of};
ghost use Rattle.command_line.specs.Words.{AsksFor, AsksForSome, texts_of};

use crate::command::{ASIDE, CAP, CHECK, COUNT, EXTEND, FILE, LOAD, READ, SAMPLE, SAVE, command};
use crate::error::WordsError;
use crate::job::{Job, Task};
use crate::number::number_of;
use clap::ArgMatches;
use clap::parser::ValueSource;
use mk_value::{Memory, Text};
use std::alloc::Global;
use storage::Mode;

/// The least cap: the size of a file without views.
const LEAST_CAP: u64 = 208;

/// The greatest cap, which is also the one that is meant where none is given.
const MOST_CAP: u64 = 2_147_483_632;

/// The most edits of a sample.
const MOST_EDITS: u64 = 1_000_000;

/// The job that the words ask for, of which the first is the program's own name.
///
/// # Errors
///
/// `Usage` where they ask for none, and only there. `Memory` where an allocation was refused, whatever the words.
pub fn read_words(alloc: Global, words: &[&str]) -> Result<Job, WordsError>
    ensures ok { IfOk result (λ job. AsksFor (texts_of words.now) job) }
    ensures usage { result ≡ Err WordsError.Usage → ¬ AsksForSome (texts_of words.now) }
    ensures none { ¬ AsksForSome (texts_of words.now) → IsErr result }
{
    let matches = command(alloc)?.try_get_matches_from(words)?;
    job_of(alloc, &matches)
}

/// The job that matches ask for.
fn job_of(alloc: Global, matches: &ArgMatches<'_>) -> Result<Job, WordsError>
    ensures ok { IfOk result (λ job. Asks (found_rows matches.now) job) }
    ensures usage { result ≡ Err WordsError.Usage → (job : Job) → Asks (found_rows matches.now) job → ⊥ }
{
    let Some(file) = file_of(matches) else {
        return Err(WordsError::Usage);
    };
    let Some(cap) = cap_of(matches) else {
        return Err(WordsError::Usage);
    };
    let Some((mode, task)) = use_of(matches) else {
        return Err(WordsError::Usage);
    };
    if !goes_with_aside(matches) {
        return Err(WordsError::Usage);
    }
    Ok(Job {
        file: Text::from_str(alloc, file)?,
        aside: aside_of(alloc, matches)?,
        mode,
        cap,
        task,
    })
}

/// The name of the file, where it is not empty.
fn file_of<'a>(matches: &ArgMatches<'a>) -> Option<&'a str>
    ensures some { IfSome result (λ file. IsFile (found_rows matches.now) file.now) }
    ensures none { IfNone result ((file : List ℕ) → IsFile (found_rows matches.now) file → ⊥) }
{
    let file = matches.get_str(FILE)?;
    if file.is_empty() { None } else { Some(file) }
}

/// The name of the base, where one is given.
fn aside_of(alloc: Global, matches: &ArgMatches<'_>) -> Result<Option<Text>, Memory>
    ensures { IfOk result (λ aside. name_of aside ≡ first_of (codes "aside") (found_rows matches.now)) }
{
    match matches.get_str(ASIDE) {
        Some(name) => Ok(Some(Text::from_str(alloc, name)?)),
        None => Ok(None),
    }
}

/// Whether no base is named, or all that is given goes with one.
fn goes_with_aside(matches: &ArgMatches<'_>) -> bool
    ensures { IsTrue result ↔ (is_some (first_of (codes "aside") (found_rows matches.now)) ≡ true → goes_without_base (found_rows matches.now) ≡ false) }
{
    !has_value(matches, ASIDE) || !goes_without_base(matches)
}

/// Whether something is given besides `--aside`, `--cap`, `--extend` and the file.
fn goes_without_base(matches: &ArgMatches<'_>) -> bool
    ensures { result ≡ goes_without_base (found_rows matches.now) }
{
    is_given(matches, READ)
        || is_flagged(matches)
        || has_value(matches, SAMPLE)
        || has_value(matches, COUNT)
}

/// Whether an option is given with a value.
fn has_value(matches: &ArgMatches<'_>, name: &str) -> bool
    ensures { result ≡ is_some (first_of name.now (found_rows matches.now)) }
{
    matches.get_str(name).is_some()
}

/// The cap that is given, or meant.
fn cap_of(matches: &ArgMatches<'_>) -> Option<u64>
    ensures some { IfSome result (λ cap. IsCap (found_rows matches.now) cap) }
    ensures none { IfNone result ((cap : ℕ) → IsCap (found_rows matches.now) cap → ⊥) }
{
    let Some(text) = matches.get_str(CAP) else {
        return Some(MOST_CAP);
    };
    let cap = number_of(text)?;
    if cap < LEAST_CAP || MOST_CAP < cap {
        return None;
    }
    Some(cap)
}

/// How the store is used and what is done with it, where the options go together.
fn use_of(matches: &ArgMatches<'_>) -> Option<(Mode, Task)>
    ensures some { IfSome result (λ found. IsUse (found_rows matches.now) found.0 found.1) }
    ensures none { IfNone result ((mode : Mode) (task : Task) → IsUse (found_rows matches.now) mode task → ⊥) }
{
    let mode = mode_of(matches)?;
    let task = task_of(matches)?;
    Some((mode, task))
}

/// How the store is used.
fn mode_of(matches: &ArgMatches<'_>) -> Option<Mode>
    ensures some { IfSome result (IsMode (found_rows matches.now)) }
    ensures none { IfNone result ((mode : Mode) → IsMode (found_rows matches.now) mode → ⊥) }
{
    let extends = is_given(matches, EXTEND);
    let reads = is_given(matches, READ);
    let loads = is_given(matches, LOAD);
    match (looks(matches), loads, extends, reads) {
        (true, _, false, false) if !is_given(matches, CAP) => Some(Mode::Read),
        (false, false, true, false) => Some(Mode::Extend),
        (false, false, false, true) => Some(Mode::Read),
        (false, _, false, false) => Some(Mode::Write),
        _ => None,
    }
}

/// Whether the store is only looked at.
fn looks(matches: &ArgMatches<'_>) -> bool
    ensures { result ≡ looks (found_rows matches.now) }
{
    is_given(matches, CHECK) || is_given(matches, SAVE)
}

/// What is done with the store.
fn task_of(matches: &ArgMatches<'_>) -> Option<Task>
    ensures some { IfSome result (IsTask (found_rows matches.now)) }
    ensures none { IfNone result ((task : Task) → IsTask (found_rows matches.now) task → ⊥) }
{
    let Some(number) = matches.get_str(SAMPLE) else {
        return task_of_no_sample(matches);
    };
    let count = matches.get_str(COUNT)?;
    if is_given(matches, READ) || is_flagged(matches) {
        return None;
    }
    sample_of(number, count)
}

/// What is done with the store where no number of a sample is given.
fn task_of_no_sample(matches: &ArgMatches<'_>) -> Option<Task>
    ensures some { IfSome result (MeansTask (found_rows matches.now) None (first_of (codes "count") (found_rows matches.now))) }
    ensures none { IfNone result ((task : Task) → MeansTask (found_rows matches.now) None (first_of (codes "count") (found_rows matches.now)) task → ⊥) }
{
    if matches.get_str(COUNT).is_some() {
        return None;
    }
    flagged_task(matches)
}

/// What is done by the flags that are given, of which no two go together.
fn flagged_task(matches: &ArgMatches<'_>) -> Option<Task>
    ensures { result ≡ flagged_task (found_rows matches.now) }
{
    let checks = is_given(matches, CHECK);
    let saves = is_given(matches, SAVE);
    let loads = is_given(matches, LOAD);
    match (checks, saves, loads) {
        (false, false, false) => Some(Task::Serve),
        (true, false, false) => Some(Task::Check),
        (false, true, false) => Some(Task::Save),
        (false, false, true) => Some(Task::Load),
        _ => None,
    }
}

/// Whether one of these flags is given.
fn is_flagged(matches: &ArgMatches<'_>) -> bool
    ensures { result ≡ is_flagged (found_rows matches.now) }
{
    looks(matches) || is_given(matches, LOAD)
}

/// The sample of a number, with so many edits.
fn sample_of(number: &str, count: &str) -> Option<Task>
    ensures some { IfSome result (MeansSample number.now count.now) }
    ensures none { IfNone result ((task : Task) → MeansSample number.now count.now task → ⊥) }
{
    let number = number_of(number)?;
    let count = number_of(count)?;
    if count > MOST_EDITS {
        return None;
    }
    Some(Task::Sample {
        number,
        count: count as u32,
    })
}

/// Whether the words give this, be it an option or the file.
#[tactic(auto, using(crate::proofs::Found::given_by_source))]
fn is_given(matches: &ArgMatches<'_>, name: &str) -> bool
    ensures { result ≡ is_given name.now (found_rows matches.now) }
{
    matches!(matches.value_source(name), Some(ValueSource::CommandLine))
}

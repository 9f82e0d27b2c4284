//! What words ask for, and words that ask for nothing.
use command_line::{Job, Task, WordsError, read_words};
use std::alloc::Global;
use std::process::Abort;
use std::test::Fail;
use storage::Mode;

/// The words behind the program's own name; the file, how it is used, its cap, and what is done.
type Asked = (&'static [&'static str], &'static str, Mode, u64, Task);

/// The cap that is meant where none is given.
const MOST: u64 = 2_147_483_632;

static ASKED: [Asked; 31] = [
    (&["f"], "f", Mode::Write, MOST, Task::Serve),
    (&["--extend", "f"], "f", Mode::Extend, MOST, Task::Serve),
    (&["--read", "f"], "f", Mode::Read, MOST, Task::Serve),
    (&["--check", "f"], "f", Mode::Read, MOST, Task::Check),
    // The least and the greatest cap.
    (&["--cap", "208", "f"], "f", Mode::Write, 208, Task::Serve),
    (&["--cap", "300", "f"], "f", Mode::Write, 300, Task::Serve),
    (
        &["--cap", "2147483632", "f"],
        "f",
        Mode::Write,
        MOST,
        Task::Serve,
    ),
    (&["--cap=300", "f"], "f", Mode::Write, 300, Task::Serve),
    // A cap goes with both ways to use a store that is served.
    (
        &["--cap", "300", "--extend", "f"],
        "f",
        Mode::Extend,
        300,
        Task::Serve,
    ),
    (
        &["--read", "--cap", "300", "f"],
        "f",
        Mode::Read,
        300,
        Task::Serve,
    ),
    // The file may stand before the options.
    (&["f", "--extend"], "f", Mode::Extend, MOST, Task::Serve),
    (&["f", "--cap", "300"], "f", Mode::Write, 300, Task::Serve),
    (&["f", "--check"], "f", Mode::Read, MOST, Task::Check),
    // A sample, up to its bounds and with the options that it goes with.
    (
        &["--sample", "0", "--count", "0", "f"],
        "f",
        Mode::Write,
        MOST,
        Task::Sample {
            number: 0,
            count: 0,
        },
    ),
    (
        &["--count=1000000", "f", "--sample=18446744073709551615"],
        "f",
        Mode::Write,
        MOST,
        Task::Sample {
            number: 18_446_744_073_709_551_615,
            count: 1_000_000,
        },
    ),
    (
        &[
            "--extend", "--cap", "300", "--sample", "7", "--count", "2000", "f",
        ],
        "f",
        Mode::Extend,
        300,
        Task::Sample {
            number: 7,
            count: 2000,
        },
    ),
    // The stream of a store, and a store of a stream, which may have a cap.
    (&["--save", "f"], "f", Mode::Read, MOST, Task::Save),
    (&["f", "--load"], "f", Mode::Write, MOST, Task::Load),
    (
        &["--load", "--cap", "300", "f"],
        "f",
        Mode::Write,
        300,
        Task::Load,
    ),
    (
        &["--cap=208", "f", "--load"],
        "f",
        Mode::Write,
        208,
        Task::Load,
    ),
    // What stands behind `--` is no option.
    (&["--", "f"], "f", Mode::Write, MOST, Task::Serve),
    (&["--", "--read"], "--read", Mode::Write, MOST, Task::Serve),
    (
        &["--read", "--", "--read"],
        "--read",
        Mode::Read,
        MOST,
        Task::Serve,
    ),
    (&["f", "--"], "f", Mode::Write, MOST, Task::Serve),
    (&["--", "--"], "--", Mode::Write, MOST, Task::Serve),
    // A hyphen by itself is no option.
    (&["-"], "-", Mode::Write, MOST, Task::Serve),
    // Names that look like something else.
    (&["help"], "help", Mode::Write, MOST, Task::Serve),
    (&["300"], "300", Mode::Write, MOST, Task::Serve),
    (&["cap=300"], "cap=300", Mode::Write, MOST, Task::Serve),
    (&[" "], " ", Mode::Write, MOST, Task::Serve),
    (&["d/\u{e4}"], "d/\u{e4}", Mode::Write, MOST, Task::Serve),
];

/// Words behind the program's own name that ask for nothing.
static ASK_NOTHING: [&[&str]; 82] = [
    // No file, an empty name, and two files.
    &[],
    &["--read"],
    &["--"],
    &[""],
    &["--read", ""],
    &["--", ""],
    &["f", "g"],
    &["--", "f", "--read"],
    &["", "f"],
    // Caps out of bounds.
    &["--cap", "0", "f"],
    &["--cap", "207", "f"],
    &["--cap", "2147483633", "f"],
    &["--cap", "18446744073709551616", "f"],
    &["--cap", "100000000000000000000000000000300", "f"],
    // Caps that are spelled otherwise.
    &["--cap", "0300", "f"],
    &["--cap", "+300", "f"],
    &["--cap", "-300", "f"],
    &["--cap=-300", "f"],
    &["--cap", "", "f"],
    &["--cap=", "f"],
    &["--cap", " 300", "f"],
    &["--cap", "300 ", "f"],
    &["--cap", "3_00", "f"],
    &["--cap", "3e2", "f"],
    &["--cap", "0x12c", "f"],
    &["--cap", "\u{663}00", "f"],
    &["--cap==300", "f"],
    // A cap without a value.
    &["--cap"],
    &["f", "--cap"],
    &["--cap", "300"],
    &["--cap", "--read", "f"],
    &["--cap", "--", "f"],
    // An option twice.
    &["--cap", "300", "--cap", "300", "f"],
    &["--extend", "--extend", "f"],
    &["--read", "--read", "f"],
    &["--check", "f", "--check"],
    // A value for an option that takes none.
    &["--read=", "f"],
    &["--read=true", "f"],
    // Options that do not go together.
    &["--read", "--extend", "f"],
    &["--extend", "--read", "--cap", "300", "f"],
    &["--check", "--read", "f"],
    &["--check", "--extend", "f"],
    &["--check", "--cap", "300", "f"],
    &["--check", "--cap", "2147483632", "f"],
    // A sample without its count, with `--read` or `--check`, and out of bounds.
    &["--sample", "1", "f"],
    &["--count", "1", "f"],
    &["--sample", "1", "--count", "1", "--read", "f"],
    &["--check", "--sample", "1", "--count", "1", "f"],
    &["--check", "--count", "1", "f"],
    &["--sample", "18446744073709551616", "--count", "1", "f"],
    &["--sample", "1", "--count", "1000001", "f"],
    &["--sample", "-1", "--count", "1", "f"],
    &["--sample", "1", "--count", "01", "f"],
    &["--sample", "1", "--sample", "1", "--count", "1", "f"],
    // A stream with what it does not go with.
    &["--save", "--load", "f"],
    &["--save", "--check", "f"],
    &["--check", "--load", "f"],
    &["--save", "--check", "--load", "f"],
    &["--save", "--read", "f"],
    &["--save", "--extend", "f"],
    &["--save", "--cap", "300", "f"],
    &["--load", "--read", "f"],
    &["--load", "--extend", "f"],
    &["--save", "--sample", "1", "--count", "1", "f"],
    &["--load", "--sample", "1", "--count", "1", "f"],
    &["--save", "--save", "f"],
    &["--load=1", "f"],
    &["--load"],
    // A base goes with `--cap` and `--extend` alone, is named once, and is not the file.
    &["--aside", "b", "--read", "f"],
    &["--aside", "b", "--check", "f"],
    &["--aside", "b", "--save", "f"],
    &["--aside", "b", "--load", "f"],
    &["--aside", "b", "--sample", "1", "--count", "1", "f"],
    &["--aside", "b", "--aside", "b", "f"],
    &["--aside", "f"],
    // Help, the version, and options that are not there.
    &["--help", "f"],
    &["-h"],
    &["--version", "f"],
    &["-V"],
    &["--rea", "f"],
    &["--READ", "f"],
    &["-read", "f"],
];

/// The job that the program's own name and these words ask for.
fn job_of(
    alloc: Global,
    own: &'static str,
    words: &[&'static str],
) -> Result<Result<Job, WordsError>, Fail> {
    let mut all = Vec::new(alloc);
    all.push(own)?;
    all.extend_from_slice(words)?;
    Ok(read_words(alloc, &all))
}

fn holds(rt: &impl Abort, alloc: Global, own: &'static str, asked: &Asked) -> Result<(), Fail> {
    let (words, file, mode, cap, task) = *asked;
    let job = job_of(alloc, own, words)??;
    assert_eq!(rt; job.file.as_str(), file, "{words:?}");
    assert_eq!(rt; job.mode, mode, "{words:?}");
    assert_eq!(rt; job.cap, cap, "{words:?}");
    assert_eq!(rt; job.task, task, "{words:?}");
    assert!(rt; job.aside.is_none(), "{words:?}");
    Ok(())
}

#[test]
fn words_ask_for_a_job(rt: HostRuntime) -> Result<(), Fail> {
    for asked in &ASKED {
        holds(&rt, rt.alloc(), "mkshell", asked)?;
    }
    Ok(())
}

#[test]
fn words_ask_for_nothing(rt: HostRuntime) -> Result<(), Fail> {
    for words in &ASK_NOTHING {
        let words = *words;
        let answer = job_of(rt.alloc(), "mkshell", words)?;
        assert!(rt; matches!(answer, Err(WordsError::Usage)), "{words:?}");
    }
    Ok(())
}

/// Whatever the first word is, it is no option; and there may be no word at all.
#[test]
fn the_first_word_is_the_programs_own(rt: HostRuntime) -> Result<(), Fail> {
    for own in ["", "--help", "f"] {
        holds(&rt, rt.alloc(), own, &ASKED[0])?;
    }
    let answer = read_words(rt.alloc(), &[]);
    assert!(rt; matches!(answer, Err(WordsError::Usage)));
    Ok(())
}

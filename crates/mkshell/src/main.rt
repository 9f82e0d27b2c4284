//! `mkshell FILE`: takes lines from standard input, and says the replies on standard output. With `--aside BASE` a second file is served, and
//! never written.
#![tactic(auto)]

ghost use Rattle.std.specs.Prelude.{◌≡◌, ◌∷◌, []};
ghost use Rattle.mk_value.specs.Heading.{Domain};
ghost use Rattle.viewers.specs.Laws.{AreArguments, gives};

mod stock;

use aside_run::run_over;
use mk_value::{Memory, Row};
use read_ahead::Ahead;
use real_host::RealHost;
use shell::Status;
use std::io::ErrorKind;
use std::process::ExitCode;
use std::{env, io};
use stock::{name, one_number, one_text, two_numbers};
use viewers::{Call, Law, StoredViewer, length, sum, twice};

fn main(rt: HostRuntime) -> ExitCode {
    ExitCode::from(status(&rt).code())
}

/// Runs the program with the words that it was started with. Words that are no text are no command line.
fn status(rt: &HostRuntime) -> Status {
    match words(rt) {
        Ok(words) => lend(rt, &words).unwrap_or(Status::Memory),
        Err(error) if error.kind() == ErrorKind::OutOfMemory => Status::Memory,
        Err(_) => serve(rt, &[]).unwrap_or(Status::Memory),
    }
}

fn words(rt: &HostRuntime) -> io::Result<Vec<String>> {
    Ok(env::args(rt)?.collect(rt.alloc())?)
}

fn lend(rt: &HostRuntime, words: &[String]) -> Result<Status, Memory> {
    let lent: Vec<&str> = words.iter().map(|word| word.as_str()).collect(rt.alloc())?;
    serve(rt, &lent)
}

/// Runs the program with these words, and the stock viewers.
fn serve(rt: &HostRuntime, words: &[&str]) -> Result<Status, Memory> {
    let alloc = rt.alloc();
    let lengths: Call = Box::new(
        alloc,
        |row: &Row| -> i64
            requires { AreArguments (Domain.text ∷ []) row.now }
            ensures { result ≡ gives Law.Length row.now }
        { length(row) },
    )?;
    let doubles: Call = Box::new(
        alloc,
        |row: &Row| -> i64
            requires { AreArguments (Domain.integer ∷ []) row.now }
            ensures { result ≡ gives Law.Twice row.now }
        { twice(row) },
    )?;
    let sums: Call = Box::new(
        alloc,
        |row: &Row| -> i64
            requires { AreArguments (Domain.integer ∷ Domain.integer ∷ []) row.now }
            ensures { result ≡ gives Law.Sum row.now }
        { sum(row) },
    )?;
    let mut viewers = Vec::new(alloc);
    viewers.push(StoredViewer::new(name("length"), Law::Length, one_text(alloc)?, lengths))?;
    viewers.push(StoredViewer::new(name("twice"), Law::Twice, one_number(alloc)?, doubles))?;
    viewers.push(StoredViewer::new(name("sum"), Law::Sum, two_numbers(alloc)?, sums))?;
    let mut host = Ahead::new(alloc, RealHost::new(*rt));
    let mut base = Ahead::new(alloc, RealHost::new(*rt));
    Ok(run_over(alloc, words, &viewers, &mut host, &mut base))
}

//! `mk FILE`: the store of `mkshell` for a person at a terminal. The words are those of `mkshell`, and `--help` and `--version`.
#![tactic(auto)]

mod stock;

use aside_run::run_over;
use mk_value::Memory;
use read_ahead::Ahead;
use real_host::RealHost;
use shell::Status;
use std::io::ErrorKind;
use std::process::ExitCode;
use std::{env, io};
use stock::Stock;
use terminal::Terminal;
use viewers::Law;

const VERSION: &str = "mk 0.3.0, for files of versions 1 and 2\n";

const HELP: &str = "mk FILE opens a store, or makes one, and answers lines; `help` lists them.

  --read        only reads the file
  --cap N       lets no commit make the file end past N bytes
  --extend      puts commits after the used part of the file
  --aside BASE  serves the store BASE, and commits to FILE
  --check       opens the store, says its numbers, and ends
  --save        says the last commit as a stream on standard output
  --load        makes a store of a stream on standard input
  --version     tells the version of this program

docs/SHELL.md tells more. With `rlwrap mk FILE` lines can be edited and come again.
";

fn main(rt: HostRuntime) -> ExitCode {
    ExitCode::from(status(&rt).code())
}

/// Runs the program with the words that it was started with. Words that are no text are no command line.
fn status(rt: &HostRuntime) -> Status {
    match words(rt) {
        Ok(words) => lend(rt, &words).unwrap_or(Status::Memory),
        Err(error) if error.kind() == ErrorKind::OutOfMemory => Status::Memory,
        Err(_) => serve(rt, &[]).unwrap_or(Status::Memory),
    }
}

fn words(rt: &HostRuntime) -> io::Result<Vec<String>> {
    Ok(env::args(rt)?.collect(rt.alloc())?)
}

fn lend(rt: &HostRuntime, words: &[String]) -> Result<Status, Memory> {
    let lent: Vec<&str> = words.iter().map(|word| word.as_str()).collect(rt.alloc())?;
    match lent.get(1) {
        Some(word) if *word == "--help" => Ok(tell(rt, HELP)),
        Some(word) if *word == "--version" => Ok(tell(rt, VERSION)),
        _ => serve(rt, &lent),
    }
}

fn tell(rt: &HostRuntime, text: &str) -> Status {
    match rt.print(text) {
        Ok(()) => Status::Done,
        Err(_) => Status::SayFault,
    }
}

/// Runs the program with these words, and the stock viewers.
fn serve(rt: &HostRuntime, words: &[&str]) -> Result<Status, Memory> {
    let alloc = rt.alloc();
    let viewers = [
        Stock::new(alloc, "length", Law::Length)?,
        Stock::new(alloc, "twice", Law::Twice)?,
        Stock::new(alloc, "sum", Law::Sum)?,
    ];
    let mut host = Terminal::new(*rt);
    let mut base = Ahead::new(alloc, RealHost::new(*rt));
    Ok(run_over(alloc, words, &viewers, &mut host, &mut base))
}

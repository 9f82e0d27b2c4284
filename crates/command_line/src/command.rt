ghost use Rattle.std.specs.Prelude.{◌≡◌, IfOk, false};
ghost use Rattle.clap.specs.Simple.{app_of};
ghost use Rattle.clap.specs.Walk.{rule_of};
ghost use Rattle.command_line.specs.Command.{flag_rule, option_rule, required_rule, the_command};

use clap::{Arg, ArgAction, Command};
use std::alloc::{AllocError, Global};

pub(crate) const CAP: &str = "cap";

pub(crate) const EXTEND: &str = "extend";

pub(crate) const READ: &str = "read";

pub(crate) const CHECK: &str = "check";

pub(crate) const SAMPLE: &str = "sample";

pub(crate) const COUNT: &str = "count";

pub(crate) const SAVE: &str = "save";

pub(crate) const LOAD: &str = "load";

pub(crate) const ASIDE: &str = "aside";

pub(crate) const FILE: &str = "file";

/// The one command that words are read as.
pub(crate) fn command<'a>(alloc: Global) -> Result<Command<'a>, AllocError>
    ensures { IfOk result (λ command. app_of command ≡ the_command) }
{
    Command::new(alloc, "mkshell")
        .arg(option(alloc, CAP))?
        .arg(flag(alloc, EXTEND))?
        .arg(flag(alloc, READ))?
        .arg(flag(alloc, CHECK))?
        .arg(option(alloc, SAMPLE))?
        .arg(option(alloc, COUNT))?
        .arg(flag(alloc, SAVE))?
        .arg(flag(alloc, LOAD))?
        .arg(option(alloc, ASIDE))?
        .arg(word(alloc, FILE))
}

/// An option with one value.
fn option<'a>(alloc: Global, name: &'a str) -> Arg<'a>
    ensures rule { rule_of result ≡ option_rule name.entry.now }
    ensures local { result.global ≡ false }
{
    Arg::new(alloc, name).long(name).action(ArgAction::Set)
}

/// An option without a value.
fn flag<'a>(alloc: Global, name: &'a str) -> Arg<'a>
    ensures rule { rule_of result ≡ flag_rule name.entry.now }
    ensures local { result.global ≡ false }
{
    Arg::new(alloc, name).long(name).action(ArgAction::SetTrue)
}

/// A word that has to be there.
fn word<'a>(alloc: Global, name: &'a str) -> Arg<'a>
    ensures rule { rule_of result ≡ required_rule name.entry.now }
    ensures local { result.global ≡ false }
{
    Arg::new(alloc, name).required(true).action(ArgAction::Set)
}

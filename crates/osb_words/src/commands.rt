//! The command of clap that reads the words.
ghost use Rattle.std.specs.Prelude.{◌≡◌, false, IfOk};
ghost use Rattle.clap.specs.Words.{app_of, rule_of, with_rule};
ghost use Rattle.osb_words.specs.Commands.{build_app, option_rule, needed_rule, flag_rule, others_rule};

use clap::{Arg, ArgAction, Command};
use std::alloc::{AllocError, Global};

pub(crate) fn command<'a>(alloc: Global) -> Result<Command<'a>, AllocError>
    ensures { IfOk result (λ command. app_of command ≡ build_app) }
{
    let command = Command::new(alloc, "build");
    let command = with(command, option(alloc, "store"))?;
    let command = with(command, needed(alloc, "output"))?;
    let command = with(command, needed(alloc, "export"))?;
    let command = with(command, option(alloc, "checkpoint"))?;
    let command = with(command, option(alloc, "limit"))?;
    let command = with(command, option(alloc, "workers"))?;
    let command = with(command, option(alloc, "mirror"))?;
    let command = with(command, flag(alloc, "log"))?;
    with(command, others(alloc, "manifests"))
}

fn with<'a>(command: Command<'a>, arg: Arg<'a>) -> Result<Command<'a>, AllocError>
    requires { arg.global ≡ false }
    ensures { IfOk result (λ more. app_of more ≡ with_rule (app_of command.entry) (rule_of arg.entry)) }
{
    command.arg(arg)
}

/// `--NAME VALUE`.
fn option<'a>(alloc: Global, name: &'a str) -> Arg<'a>
    ensures rule { rule_of result ≡ option_rule name.entry.now }
    ensures local { result.global ≡ false }
{
    Arg::new(alloc, name).long(name).action(ArgAction::Set)
}

/// An option that has to be there.
fn needed<'a>(alloc: Global, name: &'a str) -> Arg<'a>
    ensures rule { rule_of result ≡ needed_rule name.entry.now }
    ensures local { result.global ≡ false }
{
    option(alloc, name).required(true)
}

/// `--NAME`.
fn flag<'a>(alloc: Global, name: &'a str) -> Arg<'a>
    ensures rule { rule_of result ≡ flag_rule name.entry.now }
    ensures local { result.global ≡ false }
{
    Arg::new(alloc, name).long(name).action(ArgAction::SetTrue)
}

/// The words that are no options.
fn others<'a>(alloc: Global, name: &'a str) -> Arg<'a>
    ensures rule { rule_of result ≡ others_rule name.entry.now }
    ensures local { result.global ≡ false }
{
    Arg::new(alloc, name)
        .action(ArgAction::Append)
        .required(true)
}

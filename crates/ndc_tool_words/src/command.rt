ghost use Rattle.std.specs.Prelude.{◌≡◌, IfOk, false};
ghost use Rattle.clap.specs.Words.{app_of, rule_of};
ghost use Rattle.ndc_tool_words.specs.Command.{demo_app, make_app, option_rule, run_app, value_rule, whole_app};

use clap::{Arg, ArgAction, Command};
use ndc_event::OutOfMemory;
use std::alloc::Global;

/// An option that takes one value.
fn option<'a>(alloc: Global, name: &'a str) -> Arg<'a>
    ensures rule { rule_of result ≡ option_rule name.entry.now }
    ensures local { result.global ≡ false }
{
    Arg::new(alloc, name).long(name).action(ArgAction::Set)
}

/// One value that has to be there.
fn value<'a>(alloc: Global, name: &'a str) -> Arg<'a>
    ensures rule { rule_of result ≡ value_rule name.entry.now }
    ensures local { result.global ≡ false }
{
    Arg::new(alloc, name).required(true).action(ArgAction::Set)
}

/// `run`, with options in any order.
fn run<'a>(alloc: Global) -> Result<Command<'a>, OutOfMemory>
    ensures { IfOk result (λ command. app_of command ≡ run_app) }
{
    Command::new(alloc, "run")
        .arg(option(alloc, "workers"))?
        .arg(option(alloc, "index"))?
        .arg(option(alloc, "late"))
}

/// `make N SEED`.
fn make<'a>(alloc: Global) -> Result<Command<'a>, OutOfMemory>
    ensures { IfOk result (λ command. app_of command ≡ make_app) }
{
    Command::new(alloc, "make")
        .arg(value(alloc, "count"))?
        .arg(value(alloc, "seed"))
}

/// `demo N`.
fn demo<'a>(alloc: Global) -> Result<Command<'a>, OutOfMemory>
    ensures { IfOk result (λ command. app_of command ≡ demo_app) }
{
    Command::new(alloc, "demo").arg(value(alloc, "count"))
}

/// The command that takes the words apart. It has no help, no version, and no word for the program's name.
pub fn command<'a>(alloc: Global) -> Result<Command<'a>, OutOfMemory>
    ensures { IfOk result (λ command. app_of command ≡ whole_app) }
{
    Command::new(alloc, "ndc")
        .no_binary_name(true)
        .disable_help_flag(true)
        .disable_help_subcommand(true)
        .disable_version_flag(true)
        .subcommand_required(true)
        .subcommand(run(alloc)?)?
        .subcommand(Command::new(alloc, "rebuild"))?
        .subcommand(Command::new(alloc, "inspect"))?
        .subcommand(make(alloc)?)?
        .subcommand(demo(alloc)?)
}

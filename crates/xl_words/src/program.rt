// The program as `clap` sees it: its commands, and that it has help and a version.
ghost use Rattle.std.specs.Prelude.{◌≡◌, IfOk, false};
ghost use Rattle.clap.specs.Words.{app_of, rule_of};
ghost use Rattle.xl_words.specs.Programs.{bare, first_commands, plain_commands, program, rounds_rule};

use clap::{Arg, ArgAction, Command};
use std::alloc::{AllocError, Global};

/// The number of rounds, as an argument.
fn rounds_argument<'a>(alloc: Global) -> Arg<'a>
    ensures rule { rule_of result ≡ rounds_rule }
    ensures local { result.global ≡ false }
{
    Arg::new(alloc, "rounds")
        .required(true)
        .action(ArgAction::Set)
        .value_parser(clap::value_parser!(u64).range(1..=1000))
}

/// The program without its commands, of which one is wanted. Help is none of them, and there is a version.
fn without_commands<'a>(alloc: Global) -> Command<'a>
    ensures { app_of result ≡ bare }
{
    Command::new(alloc, "xl")
        .version("0.1.0")
        .subcommand_required(true)
        .disable_help_subcommand(true)
}

/// The program with the first of its commands.
fn first_commands<'a>(alloc: Global) -> Result<Command<'a>, AllocError>
    ensures { IfOk result (λ command. app_of command ≡ first_commands) }
{
    without_commands(alloc)
        .subcommand(Command::new(alloc, "replay"))?
        .subcommand(Command::new(alloc, "node"))?
        .subcommand(Command::new(alloc, "show"))?
        .subcommand(Command::new(alloc, "lists"))?
        .subcommand(Command::new(alloc, "merge"))
}

/// The program with each command that has no argument.
fn plain_commands<'a>(alloc: Global) -> Result<Command<'a>, AllocError>
    ensures { IfOk result (λ command. app_of command ≡ plain_commands) }
{
    first_commands(alloc)?
        .subcommand(Command::new(alloc, "audit"))?
        .subcommand(Command::new(alloc, "blame"))?
        .subcommand(Command::new(alloc, "flags"))?
        .subcommand(Command::new(alloc, "negative"))?
        .subcommand(Command::new(alloc, "tell"))
}

/// The program with all of its commands.
pub fn program<'a>(alloc: Global) -> Result<Command<'a>, AllocError>
    ensures { IfOk result (λ command. app_of command ≡ program) }
{
    let plain = plain_commands(alloc)?;
    let rounds = Command::new(alloc, "gen").arg(rounds_argument(alloc))?;
    plain.subcommand(rounds)
}

ghost use Rattle.std.specs.Prelude.{◌≡◌, ◌⊎◌, Ok, Err, Some, IfOk, option_map};
ghost use Rattle.clap.specs.Words.{rows_of, found_of, subcommand_rows_of};
ghost use Rattle.xl_words.specs.Commands.{command_of, command_found, command_named, gen, reply_to, words_of};
ghost use Rattle.xl_words.specs.Commands.{other_command_named, IsExactly};

use crate::program::program;
use crate::rounds::rounds_of;
use clap::ArgMatches;
use clap::error::ErrorKind;
use std::alloc::Global;

/// What the words ask the program to do.
#[derive(Clone, Copy, PartialEq, Eq)]
pub enum Command {
    /// Runs a validator by the settings that it reads.
    Node,
    /// Writes a text.
    Tell(Telling),
}

/// A command that writes a text, which what it reads decides.
#[derive(Clone, Copy, PartialEq, Eq)]
pub enum Telling {
    /// Runs a schedule, and writes what each node does.
    Replay,
    /// Runs a schedule, and tells each event of it.
    Events,
    /// Writes what the frames of a stream say.
    Show,
    /// Compares the lists of a schedule, pair by pair.
    Lists,
    /// Tells which list of members is in force, from the rolls of several publishers.
    Merge,
    /// Says whether each entry of a written journal is right.
    Audit,
    /// Says which reports of several written journals differ, and which members said two ledgers.
    Blame,
    /// Says which amendments are enabled, and which fee is set, by the votes of a schedule.
    Flags,
    /// Writes a schedule again, with the lists that leave out silent members.
    Negative,
    /// Makes a schedule of this many rounds, 1 to 1,000, and runs it.
    Gen(u32),
    Help,
    Version,
}

/// Why the words ask nothing.
#[derive(Clone, Copy, PartialEq, Eq)]
pub enum WordsFault {
    /// They are no command.
    Refused,
    /// Memory ran out.
    Memory,
}

impl Command {
    /// What the words ask, of which the first is the program's name.
    pub fn of(alloc: Global, words: &[String]) -> Result<Command, WordsFault>
        // If the words are exactly those of a command, or of help or the version, it is answered.
        ensures exact { (command : Command) → IsExactly (words_of words.now) command
            → (result ≡ Ok command) ⊎ (result ≡ Err WordsFault.Memory) }
        // So is whatever `clap` gives, and nothing else.
        ensures given { (command : Command) → command_of (words_of words.now) ≡ Some command
            → (result ≡ Ok command) ⊎ (result ≡ Err WordsFault.Memory) }
        ensures found { IfOk result (λ command. command_of (words_of words.now) ≡ Some command) }
    {
        found(alloc, words)
    }
}

/// What `clap` finds in the words, or what it says in place of a command.
fn found(alloc: Global, words: &[String]) -> Result<Command, WordsFault>
    ensures given { (command : Command) → command_of (words_of words.now) ≡ Some command
        → (result ≡ Ok command) ⊎ (result ≡ Err WordsFault.Memory) }
    ensures found { IfOk result (λ command. command_of (words_of words.now) ≡ Some command) }
{
    let Ok(program) = program(alloc) else {
        return Err(WordsFault::Memory);
    };
    match program.try_get_matches_from(words) {
        Ok(matches) => named_in(&matches).ok_or(WordsFault::Refused),
        Err(error) => reply_to(error.kind()),
    }
}

/// The command of what `clap` found.
fn named_in(matches: &ArgMatches<'_>) -> Option<Command>
    ensures { result ≡ command_found (subcommand_rows_of matches.now) }
{
    match matches.subcommand() {
        Some((name, inner)) => named(name, inner),
        None => None,
    }
}

/// The command of this name and these matches of its own.
fn named(name: &str, matches: &ArgMatches<'_>) -> Option<Command>
    ensures { result ≡ command_named name.now (rows_of (found_of matches.now)) }
{
    if name == "replay" {
        return Some(Command::Tell(Telling::Replay));
    }
    if name == "node" {
        return Some(Command::Node);
    }
    if name == "show" {
        return Some(Command::Tell(Telling::Show));
    }
    if name == "lists" {
        return Some(Command::Tell(Telling::Lists));
    }
    if name == "merge" {
        return Some(Command::Tell(Telling::Merge));
    }
    other_named(name, matches)
}

/// The command of another name.
fn other_named(name: &str, matches: &ArgMatches<'_>) -> Option<Command>
    ensures { result ≡ other_command_named name.now (rows_of (found_of matches.now)) }
{
    if name == "audit" {
        return Some(Command::Tell(Telling::Audit));
    }
    if name == "blame" {
        return Some(Command::Tell(Telling::Blame));
    }
    if name == "flags" {
        return Some(Command::Tell(Telling::Flags));
    }
    if name == "negative" {
        return Some(Command::Tell(Telling::Negative));
    }
    if name == "tell" {
        return Some(Command::Tell(Telling::Events));
    }
    if name == "gen" {
        return made(rounds_of(matches));
    }
    None
}

/// The command that makes this many rounds, if that is a number that it takes.
fn made(rounds: Option<u32>) -> Option<Command>
    ensures { result ≡ option_map gen rounds }
{
    rounds.map(|rounds| Command::Tell(Telling::Gen(rounds)))
}

/// What is answered if `clap` gives this kind of error.
fn reply_to(kind: ErrorKind) -> Result<Command, WordsFault>
    ensures { result ≡ reply_to kind }
{
    match kind {
        ErrorKind::DisplayHelp => Ok(Command::Tell(Telling::Help)),
        ErrorKind::DisplayVersion => Ok(Command::Tell(Telling::Version)),
        ErrorKind::OutOfMemory => Err(WordsFault::Memory),
        _ => Err(WordsFault::Refused),
    }
}

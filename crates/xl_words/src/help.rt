// What the program says of itself.
ghost use Rattle.std.specs.Prelude.{◌≡◌, ◌++◌, OnOk};
ghost use Rattle.std.specs.String.{string_bytes};
ghost use Rattle.xl_words.specs.Help.{usage_text, commands_text, streams_text, statuses_text, help_text, version_text};

use std::alloc::AllocError;

/// Adds what each command does, what it reads and writes, how it may end, and where to read on.
pub fn push_help(text: &mut String) -> Result<(), AllocError>
    ensures { OnOk result (string_bytes text.new ≡ string_bytes text.old ++ help_text) }
{
    push_usage(text)?;
    push_commands(text)?;
    push_streams(text)?;
    push_statuses(text)?;
    Ok(())
}

#[tactic(auto, unfolding(crate::specs::Help::usage_text))]
fn push_usage(text: &mut String) -> Result<(), AllocError>
    ensures { OnOk result (string_bytes text.new ≡ string_bytes text.old ++ usage_text) }
{
    text.push_str("xl is the agreement layer of the XRP Ledger.\n\n")?;
    text.push_str("usage: xl COMMAND\n\n")?;
    Ok(())
}

#[tactic(auto, unfolding(crate::specs::Help::commands_text))]
fn push_commands(text: &mut String) -> Result<(), AllocError>
    ensures { OnOk result (string_bytes text.new ≡ string_bytes text.old ++ commands_text) }
{
    text.push_str("  replay         runs a schedule, and writes what each node does\n")?;
    text.push_str(
        "  tell           runs a schedule, and tells each event: what is sent and held\n",
    )?;
    text.push_str("  node           runs a validator by the settings that it reads\n")?;
    text.push_str("  lists          compares the trusted lists of a schedule, pair by pair\n")?;
    text.push_str("  merge          tells which list is in force, from the rolls of publishers\n")?;
    text.push_str("  audit          says whether each entry of a written journal is right\n")?;
    text.push_str(
        "  blame          says which members said two ledgers, by the journals of nodes\n",
    )?;
    text.push_str(
        "  flags          says which amendments are enabled, by the votes of a schedule\n",
    )?;
    text.push_str(
        "  negative       writes a schedule with the lists that leave out silent members\n",
    )?;
    text.push_str("  show           writes what each frame of a stream says\n")?;
    text.push_str("  gen N          makes a schedule of N rounds, runs it, and sums it up\n")?;
    text.push_str("  -h, --help     writes this\n")?;
    text.push_str("  -V, --version  writes the version\n\n")
}

#[tactic(auto, unfolding(crate::specs::Help::streams_text))]
fn push_streams(text: &mut String) -> Result<(), AllocError>
    ensures { OnOk result (string_bytes text.new ≡ string_bytes text.old ++ streams_text) }
{
    text.push_str(
        "A command reads standard input and writes standard output. replay, tell, lists,\n",
    )?;
    text.push_str(
        "flags and negative read a schedule, which begins with the line: xl-schedule 1\n",
    )?;
    text.push_str("merge reads rolls, in a text that begins with the line: xl-publish 1\n")?;
    text.push_str("audit reads a written journal, which begins with the line: xl-journal 1\n")?;
    text.push_str("blame reads one journal or more, each right behind the one before it.\n")?;
    text.push_str("show reads the bytes of frames, and node its settings, which are TOML.\n\n")?;
    Ok(())
}

#[tactic(auto, unfolding(crate::specs::Help::statuses_text))]
fn push_statuses(text: &mut String) -> Result<(), AllocError>
    ensures { OnOk result (string_bytes text.new ≡ string_bytes text.old ++ statuses_text) }
{
    text.push_str("status 0  all is written\n")?;
    text.push_str("       1  all is written, with a fork, a wrong entry, or something to blame\n")?;
    text.push_str("       2  the words are no command\n")?;
    text.push_str("       3  the input is refused, and the last line says where and why\n")?;
    text.push_str("       4  a read failed; 5  a write failed; 6  memory was wanting\n")?;
    text.push_str(
        "       7  the keeper's file failed; 8  the network failed; 9  all turns are spent\n\n",
    )?;
    text.push_str("More is in the manual page docs/xl.1, and all formats are in docs/FORMATS.md.\n")
}

/// Adds the program's name and version.
pub fn push_version(text: &mut String) -> Result<(), AllocError>
    ensures { OnOk result (string_bytes text.new ≡ string_bytes text.old ++ version_text) }
{
    text.push_str("xl 0.1.0\n")
}

// What the program says without an input.
ghost use Rattle.std.specs.Prelude.{◌≡◌, min, IfOk, string_bytes};
ghost use Rattle.xl_gen.specs.Sizes.{most_rounds};
ghost use Rattle.xl_gen.specs.Summaries.{summary};
ghost use Rattle.xl_lines.specs.Rules.{closes};
ghost use Rattle.xl_texts.specs.Keeps.{SaysAlone};
ghost use Rattle.xl_words.specs.Help.{help_text, version_text};

use std::alloc::Global;
use xl_base::OutOfMemory;
use xl_gen::{MOST_ROUNDS, generate};
use xl_io::Sink;
use xl_lines::{Fault, Verdict};
use xl_texts::say;
use xl_words::{push_help, push_version};

/// Writes what each command does, what it reads and writes, and how it may end.
pub fn help<O: Sink>(alloc: Global, output: &mut O) -> Result<Verdict, Fault>
    ensures { SaysAlone (closes help_text Verdict.Good)
        (O.held output.old) (O.faults output.old) (O.held output.new) (O.faults output.new) result }
{
    let Ok(text) = the_help(alloc) else {
        return Err(Fault::Memory);
    };
    say(output, text.as_bytes(), Verdict::Good)
}

fn the_help(alloc: Global) -> Result<String, OutOfMemory>
    ensures { IfOk result (λ text. string_bytes text ≡ help_text) }
{
    let mut text = String::new(alloc);
    push_help(&mut text)?;
    Ok(text)
}

/// Writes the program's name and version.
pub fn version<O: Sink>(alloc: Global, output: &mut O) -> Result<Verdict, Fault>
    ensures { SaysAlone (closes version_text Verdict.Good)
        (O.held output.old) (O.faults output.old) (O.held output.new) (O.faults output.new) result }
{
    let Ok(text) = the_version(alloc) else {
        return Err(Fault::Memory);
    };
    say(output, text.as_bytes(), Verdict::Good)
}

fn the_version(alloc: Global) -> Result<String, OutOfMemory>
    ensures { IfOk result (λ text. string_bytes text ≡ version_text) }
{
    let mut text = String::new(alloc);
    push_version(&mut text)?;
    Ok(text)
}

/// Makes the schedule of this many rounds, or of the most, and writes its summary.
pub fn made<O: Sink>(alloc: Global, rounds: u32, output: &mut O) -> Result<Verdict, Fault>
    ensures { SaysAlone (summary (min rounds most_rounds))
        (O.held output.old) (O.faults output.old) (O.held output.new) (O.faults output.new) result }
{
    generate(alloc, rounds.min(MOST_ROUNDS), output)
}

// The lines, added to a text.
ghost use Rattle.std.specs.Prelude.{◌≡◌, ◌++◌, decimal, Some, None, Ok, OnOk};
ghost use Rattle.std.specs.String.{string_bytes};
ghost use Rattle.hex.specs.Hex.{encode_lower};
ghost use Rattle.xl_merge.specs.Texts.{values_text, roll_text, members_text, later_members, list_text};
ghost use Rattle.xl_publish.specs.declared.publishers.Took.TheVariants.{Kept};

use std::alloc::Global;
use std::fmt::Write;
use xl_base::{NodeNo, OutOfMemory};
use xl_lists::List;
use xl_publish::{RollRefusal, Took};

/// What is written of a roll that a line hands in.
pub fn push_roll(
    alloc: Global,
    text: &mut String,
    line: u64,
    answer: &Result<Took, RollRefusal>,
) -> Result<(), OutOfMemory>
    ensures { OnOk result (string_bytes text.new ≡ string_bytes text.old ++ roll_text line answer.now) }
{
    match answer {
        Ok(Took::New) => Ok(()),
        Ok(Took::Kept(seq)) => push_kept(text, line, *seq),
        Err(refusal) => push_refused(alloc, text, line, refusal),
    }
}

fn push_kept(text: &mut String, line: u64, seq: u32) -> Result<(), OutOfMemory>
    ensures { OnOk result (string_bytes text.new ≡ string_bytes text.old ++ roll_text line (Ok (Kept seq))) }
{
    write!(text, "kept {line} {seq}\n")?;
    Ok(())
}

fn push_refused(
    alloc: Global,
    text: &mut String,
    line: u64,
    refusal: &RollRefusal,
) -> Result<(), OutOfMemory>
    ensures { OnOk result (string_bytes text.new ≡ string_bytes text.old ++ roll_text line (Err refusal.now)) }
{
    let code = refusal.code();
    write!(text, "refused {line} {code} ")?;
    push_values(alloc, text, refusal)?;
    text.push('\n')?;
    Ok(())
}

/// The values of why a roll is refused.
fn push_values(alloc: Global, text: &mut String, refusal: &RollRefusal) -> Result<(), OutOfMemory>
    ensures { OnOk result (string_bytes text.new ≡ string_bytes text.old ++ values_text refusal.now) }
{
    match refusal {
        RollRefusal::Magic(number)
        | RollRefusal::Short(number)
        | RollRefusal::Long(number)
        | RollRefusal::Member(number) => push_number(text, *number as u64),
        RollRefusal::Version(version) => push_number(text, u64::from(*version)),
        RollRefusal::Count(count) => push_number(text, u64::from(*count)),
        RollRefusal::Unknown(publisher) => push_number(text, u64::from(*publisher)),
        RollRefusal::BadTag { read, computed } => {
            push_tag(alloc, text, read)?;
            text.push(' ')?;
            push_tag(alloc, text, computed)
        }
        RollRefusal::Dates { from, until } => {
            write!(text, "{from} {until}")?;
            Ok(())
        }
    }
}

/// The digits of a tag.
fn push_tag(alloc: Global, text: &mut String, tag: &[u8; 32]) -> Result<(), OutOfMemory>
    ensures { OnOk result (string_bytes text.new ≡ string_bytes text.old ++ encode_lower tag.now) }
{
    let digits = hex::encode(alloc, tag.as_slice())?;
    text.push_str(digits.as_str())?;
    Ok(())
}

fn push_number(text: &mut String, number: u64) -> Result<(), OutOfMemory>
    ensures { OnOk result (string_bytes text.new ≡ string_bytes text.old ++ decimal number) }
{
    write!(text, "{number}")?;
    Ok(())
}

/// The list in force, or that there is none.
pub fn push_list(text: &mut String, list: &Option<List>) -> Result<(), OutOfMemory>
    ensures { OnOk result (string_bytes text.new ≡ string_bytes text.old ++ list_text list.now) }
{
    match list {
        None => {
            text.push_str("list none\n")?;
            Ok(())
        }
        Some(list) => push_some_list(text, list),
    }
}

fn push_some_list(text: &mut String, list: &List) -> Result<(), OutOfMemory>
    ensures { OnOk result (string_bytes text.new ≡ string_bytes text.old ++ list_text (Some list.now)) }
{
    let quorum = list.quorum();
    write!(text, "list {quorum} ")?;
    push_members(text, list.members())?;
    text.push('\n')?;
    Ok(())
}

/// Numbers that are joined by commas.
fn push_members(text: &mut String, members: &[NodeNo]) -> Result<(), OutOfMemory>
    ensures { OnOk result (string_bytes text.new ≡ string_bytes text.old ++ members_text members.now) }
{
    let Some((first, others)) = members.split_first() else {
        return Ok(());
    };
    push_number(text, u64::from(first.get()))?;
    push_later_members(text, others)
}

fn push_later_members(text: &mut String, members: &[NodeNo]) -> Result<(), OutOfMemory>
    ensures { OnOk result (string_bytes text.new ≡ string_bytes text.old ++ later_members members.now) }
{
    for member in members {
        text.push(',')?;
        push_number(text, u64::from(member.get()))?;
    }
    Ok(())
}

// The lines, added to a text.
ghost use Rattle.std.specs.Prelude.{◌≡◌, ◌++◌, Some, codes, decimal, OnOk};
ghost use Rattle.std.specs.List.{flat_map};
ghost use Rattle.std.specs.String.{string_bytes};
ghost use Rattle.hex.specs.Hex.{encode_lower};
ghost use Rattle.xl_status.specs.Texts.{
  number_line,
  validating_line,
  profile_lines,
  core_lines,
  issuing_line,
  ledger_line,
  member_line,
  member_lines,
  look_line,
  silent_line,
  unmade_name,
  named_by,
  end_line,
  status_text,
  unopened_text,
};

use crate::hearing::is_heard;
use crate::{End, Hearing, Look, Profile, Unmade};
use std::alloc::Global;
use std::fmt::Write;
use xl_base::{LedgerId, Millis, NodeNo, OutOfMemory, Status};
use xl_core::Report;
use xl_store::NodeStatus;

/// The text that says how a node is that runs, or that has ended so.
pub fn push_status(
    alloc: Global,
    text: &mut String,
    profile: &Profile,
    status: &NodeStatus,
    hearing: &Hearing,
    look: Option<Look>,
    ended: Option<End>,
) -> Result<(), OutOfMemory>
    ensures { OnOk result (string_bytes text.new
        ≡ string_bytes text.old ++ status_text profile.now status.now hearing.now look ended) }
{
    text.push_str("xl-status 1\n")?;
    push_profile(text, profile)?;
    push_core(alloc, text, status)?;
    push_list(text, status, hearing)?;
    push_look(text, look)?;
    push_end(text, ended)
}

/// The text of a node that ended so before its core was opened, which it should have been at this moment.
pub fn push_unopened(
    text: &mut String,
    profile: &Profile,
    moment: Millis,
    ended: Status,
) -> Result<(), OutOfMemory>
    ensures { OnOk result (string_bytes text.new
        ≡ string_bytes text.old ++ unopened_text profile.now moment ended) }
{
    text.push_str("xl-status 1\n")?;
    push_profile(text, profile)?;
    push_number(text, "moment", moment)?;
    let end = End {
        status: ended,
        unmade: None,
    };
    push_end(text, Some(end))
}

#[tactic(auto, unfolding(crate::specs::Texts::profile_lines))]
fn push_profile(text: &mut String, profile: &Profile) -> Result<(), OutOfMemory>
    ensures { OnOk result (string_bytes text.new ≡ string_bytes text.old ++ profile_lines profile.now) }
{
    push_number(text, "me", u64::from(profile.me.get()))?;
    push_validating(text, profile.validating)?;
    push_number(text, "speak", u64::from(profile.speak))?;
    push_number(text, "turns", profile.turns)?;
    push_number(text, "heartbeat_ms", profile.heartbeat_ms)?;
    push_number(text, "run_ms", profile.run_ms)
}

/// Whether it takes part in rounds.
fn push_validating(text: &mut String, validating: bool) -> Result<(), OutOfMemory>
    ensures { OnOk result (string_bytes text.new ≡ string_bytes text.old ++ validating_line validating) }
{
    if validating {
        text.push_str("validating yes\n")?;
    } else {
        text.push_str("validating no\n")?;
    }
    Ok(())
}

#[tactic(auto, unfolding(crate::specs::Texts::core_lines))]
fn push_core(alloc: Global, text: &mut String, status: &NodeStatus) -> Result<(), OutOfMemory>
    ensures { OnOk result (string_bytes text.new ≡ string_bytes text.old ++ core_lines status.now) }
{
    push_number(text, "moment", status.time)?;
    push_number(text, "limit", u64::from(status.limit))?;
    push_number(text, "ledgers", u64::from(status.ledgers))?;
    push_number(text, "kept", u64::from(status.kept))?;
    push_issuing(text, status.failed_save)?;
    push_ledger(alloc, text, "report", &status.last)?;
    push_ledger(alloc, text, "prefers", &status.preferred)?;
    push_number(text, "lost", status.lost_reports)?;
    push_number(text, "quorum", u64::from(status.list.quorum()))
}

/// Whether it issues: not once a save has failed.
fn push_issuing(text: &mut String, failed_save: Option<u32>) -> Result<(), OutOfMemory>
    ensures { OnOk result (string_bytes text.new ≡ string_bytes text.old ++ issuing_line failed_save) }
{
    match failed_save {
        None => text.push_str("issues yes\n")?,
        Some(seq) => write!(text, "issues no {seq}\n")?,
    }
    Ok(())
}

/// A ledger, if there is one.
fn push_ledger(
    alloc: Global,
    text: &mut String,
    word: &str,
    ledger: &Option<Report>,
) -> Result<(), OutOfMemory>
    ensures { OnOk result (string_bytes text.new ≡ string_bytes text.old ++ ledger_line word.now ledger.now) }
{
    text.push_str(word)?;
    match ledger {
        None => text.push_str(" none\n")?,
        Some(report) => push_id(alloc, text, report.seq, &report.id)?,
    }
    Ok(())
}

/// A ledger's sequence and id, and the line's end.
fn push_id(alloc: Global, text: &mut String, seq: u32, id: &LedgerId) -> Result<(), OutOfMemory>
    ensures { OnOk result (string_bytes text.new
        ≡ string_bytes text.old ++ codes " " ++ decimal seq ++ codes " " ++ encode_lower id.now.0 ++ codes "\n") }
{
    let digits = hex::encode(alloc, id.0.as_slice())?;
    let digits = digits.as_str();
    write!(text, " {seq} {digits}\n")?;
    Ok(())
}

/// A line for each member of the list.
fn push_list(text: &mut String, status: &NodeStatus, hearing: &Hearing) -> Result<(), OutOfMemory>
    ensures { OnOk result (string_bytes text.new ≡ string_bytes text.old ++ member_lines status.now hearing.now) }
{
    push_members(text, status.list.members(), status, hearing)
}

/// A line for each of these members.
fn push_members(
    text: &mut String,
    members: &[NodeNo],
    status: &NodeStatus,
    hearing: &Hearing,
) -> Result<(), OutOfMemory>
    ensures { OnOk result (string_bytes text.new
        ≡ string_bytes text.old ++ flat_map (member_line status.now hearing.now) members.now) }
{
    for &member in members {
        push_member(text, status, hearing, member)?;
    }
    Ok(())
}

/// A member: heard, or since when it is silent.
fn push_member(
    text: &mut String,
    status: &NodeStatus,
    hearing: &Hearing,
    member: NodeNo,
) -> Result<(), OutOfMemory>
    ensures { OnOk result (string_bytes text.new
        ≡ string_bytes text.old ++ member_line status.now hearing.now member) }
{
    if is_heard(status, member) {
        push_number(text, "heard", u64::from(member.get()))
    } else {
        push_silent(text, member, hearing.last(member))
    }
}

fn push_silent(text: &mut String, member: NodeNo, since: Millis) -> Result<(), OutOfMemory>
    ensures { OnOk result (string_bytes text.new ≡ string_bytes text.old ++ silent_line member since) }
{
    let number = member.get();
    write!(text, "silent {number} {since}\n")?;
    Ok(())
}

/// What became of the last look at rolls, if there was one.
fn push_look(text: &mut String, look: Option<Look>) -> Result<(), OutOfMemory>
    ensures { OnOk result (string_bytes text.new ≡ string_bytes text.old ++ look_line look) }
{
    match look {
        None => {}
        Some(Look::Taken) => text.push_str("rolls taken\n")?,
        Some(Look::Unread) => text.push_str("rolls unread\n")?,
        Some(Look::Refused { line, code }) => write!(text, "rolls refused {line} {code}\n")?,
    }
    Ok(())
}

/// It runs, or has ended so.
fn push_end(text: &mut String, ended: Option<End>) -> Result<(), OutOfMemory>
    ensures { OnOk result (string_bytes text.new ≡ string_bytes text.old ++ end_line ended) }
{
    match ended {
        None => text.push_str("runs\n")?,
        Some(end) => push_cause(text, end)?,
    }
    Ok(())
}

/// With which exit status it ended, and what that names.
fn push_cause(text: &mut String, end: End) -> Result<(), OutOfMemory>
    ensures { OnOk result (string_bytes text.new ≡ string_bytes text.old ++ end_line (Some end)) }
{
    let code = end.status.code();
    write!(text, "ended {code}")?;
    push_name(text, end)?;
    text.push_str("\n")?;
    Ok(())
}

/// What an end names, behind a space.
fn push_name(text: &mut String, end: End) -> Result<(), OutOfMemory>
    ensures { OnOk result (string_bytes text.new
        ≡ string_bytes text.old ++ named_by end.status end.unmade) }
{
    match end.status {
        Status::Done => text.push_str(" run_ms")?,
        Status::KeepFault => text.push_str(" xl.keep")?,
        Status::NetFault => push_unmade(text, end.unmade)?,
        Status::StoreFull => text.push_str(" turns")?,
        Status::Fork
        | Status::WordsRefused
        | Status::InputRefused
        | Status::ReadFault
        | Status::WriteFault
        | Status::OutOfMemory => {}
    }
    Ok(())
}

/// What the hub couldn't make, if that is known.
fn push_unmade(text: &mut String, unmade: Option<Unmade>) -> Result<(), OutOfMemory>
    ensures { OnOk result (string_bytes text.new ≡ string_bytes text.old ++ unmade_name unmade) }
{
    match unmade {
        None => Ok(()),
        Some(unmade) => push_place(text, unmade),
    }
}

/// The key of the address, and for a link the member.
fn push_place(text: &mut String, unmade: Unmade) -> Result<(), OutOfMemory>
    ensures { OnOk result (string_bytes text.new ≡ string_bytes text.old ++ unmade_name (Some unmade)) }
{
    match unmade {
        Unmade::Link(member) => push_peer(text, member)?,
        Unmade::Door => text.push_str(" submit_at")?,
    }
    Ok(())
}

fn push_peer(text: &mut String, member: NodeNo) -> Result<(), OutOfMemory>
    ensures { OnOk result (string_bytes text.new ≡ string_bytes text.old ++ codes " peer " ++ decimal member) }
{
    let number = member.get();
    write!(text, " peer {number}")?;
    Ok(())
}

/// A line of a word and a number.
fn push_number(text: &mut String, word: &str, number: u64) -> Result<(), OutOfMemory>
    ensures { OnOk result (string_bytes text.new ≡ string_bytes text.old ++ number_line word.now number) }
{
    write!(text, "{word} {number}\n")?;
    Ok(())
}

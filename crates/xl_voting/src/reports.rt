// What is said of the reports among what is told of an event.
ghost use Rattle.std.specs.Prelude.{◌≡◌, IfOk, OnOk, List};
ghost use Rattle.std.specs.String.{string_bytes};
ghost use Rattle.xl_sched.specs.declared.named.Named.{Named};
ghost use Rattle.xl_voting.specs.Reports.{behind, news_said, outcome_said, outcomes_said, report_said, said_so};
ghost use Rattle.xl_voting.specs.Tallying.{tally_keeping};

use crate::counting::{close_of, counted_by};
use crate::tally::Tally;
use crate::texts::push_news;
use std::alloc::Global;
use xl_base::{NodeNo, OutOfMemory};
use xl_core::Report;
use xl_flags::FlagNews;
use xl_sched::Reader;
use xl_world::{Outcome, World};

/// Counts the votes at a node's report, if that is a flag report, and gives what it says.
fn news_of(
    alloc: Global,
    world: &World,
    tally: &mut Tally,
    node: NodeNo,
    report: &Report,
) -> Result<Option<FlagNews>, OutOfMemory>
    ensures { IfOk result (λ news. (names : List Named) → news_said names news tally.new
        ≡ report_said tally_keeping names world.now tally.old node report.now.seq report.now.id) }
{
    if !tally.is_due(node, report.seq) {
        return Ok(None);
    }
    let Some(core) = world.node(node) else {
        return Ok(None);
    };
    let Some(close) = close_of(core, &report.id) else {
        return Ok(None);
    };
    let counted = counted_by(alloc, core, report.seq, &report.id)?;
    let news = tally.report(node, report.seq, close, &counted)?;
    Ok(Some(news))
}

/// Tells what a report among what is told of an event says.
fn tell_outcome(
    alloc: Global,
    reader: &Reader,
    world: &World,
    tally: &mut Tally,
    outcome: &Outcome,
    text: &mut String,
) -> Result<(), OutOfMemory>
    ensures { OnOk result (said_so (string_bytes text.new) tally.new
        ≡ behind (string_bytes text.old) (outcome_said tally_keeping reader.now.names world.now tally.old outcome.now)) }
{
    let Outcome::Full { node, seq, id } = outcome else {
        return Ok(());
    };
    let report = Report { seq: *seq, id: *id };
    match news_of(alloc, world, tally, *node, &report)? {
        Some(news) => push_news(alloc, text, reader, news.as_slice()),
        None => Ok(()),
    }
}

/// Tells what the reports say among what is told of an event, in the world after it.
pub fn tell_outcomes(
    alloc: Global,
    reader: &Reader,
    world: &World,
    tally: &mut Tally,
    outcomes: &[Outcome],
    text: &mut String,
) -> Result<(), OutOfMemory>
    ensures { OnOk result (said_so (string_bytes text.new) tally.new
        ≡ behind (string_bytes text.old) (outcomes_said tally_keeping reader.now.names world.now tally.old outcomes.now)) }
{
    for outcome in outcomes {
        tell_outcome(alloc, reader, world, tally, outcome, text)?;
    }
    Ok(())
}

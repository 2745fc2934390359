// An event, part by part.
ghost use Rattle.std.specs.Prelude.{◌≡◌, ◌≢◌, ◌≤◌, ◌++◌, Some, OnOk};
ghost use Rattle.std.specs.String.{string_bytes};
ghost use Rattle.xl_base.specs.Moments.{greatest_millis};
ghost use Rattle.xl_running.specs.Running.{happens, in_world, world_of};
ghost use Rattle.xl_tell.specs.Parts.{lines_of_parts};
ghost use Rattle.xl_tell.specs.Tellings.{opening};
ghost use Rattle.xl_world.specs.Parts.{after_events, parts_at, parts_of};
ghost use Rattle.xl_world.specs.Schedule.{IsPlausible};

use crate::nodes::push_all_opened;
use crate::parts::{tell_part, world_in};
use crate::sent::Speller;
use std::alloc::Global;
use xl_base::{Millis, OutOfMemory};
use xl_running::Running;
use xl_sched::{Ask, Event, What};
use xl_told::{Hashed, Lead};

/// Opens the world, unless an event did, and tells what its nodes hold.
pub fn open_world(
    running: &mut Running,
    hashed: &mut Hashed,
    text: &mut String,
) -> Result<(), OutOfMemory>
    ensures world { OnOk result (running.new ≡ in_world running.old (world_of running.old)) }
    ensures told { OnOk result (string_bytes text.new ≡ string_bytes text.old ++ opening running.old) }
{
    let is_open = running.world().is_some();
    running.open_world()?;
    if is_open {
        return Ok(());
    }
    push_all_opened(text, running.reader(), hashed, world_in(running))
}

/// The frames that stand behind the mark are delivered, and then the mark moves to the end.
fn tell_all(
    alloc: Global,
    running: &mut Running,
    at: Millis,
    speller: &mut Speller,
    text: &mut String,
) -> Result<(), OutOfMemory>
    requires opened { running.old.world ≡ Some (world_of running.old) }
    requires timely { at ≤ greatest_millis }
    ensures world { OnOk result (running.new
        ≡ in_world running.old (after_events (world_of running.old) (parts_at (world_of running.old) at What.All))) }
    ensures told { OnOk result (string_bytes text.new ≡ string_bytes text.old
        ++ lines_of_parts running.old.reading.names running.old.reading.lines (world_of running.old)
        (parts_at (world_of running.old) at What.All)) }
{
    speller.lead = Lead::of(alloc, running.reader().lines(), at)?;
    let (first, end) = running.undelivered();
    for place in first..end {
        let what = What::Deliver { place: place + 1 };
        tell_part(alloc, running, &Event { at, what }, speller, text)?;
    }
    let what = What::Drop;
    tell_part(alloc, running, &Event { at, what }, speller, text)?;
    Ok(())
}

/// A timer comes to each node.
fn tell_timers(
    alloc: Global,
    running: &mut Running,
    at: Millis,
    speller: &mut Speller,
    text: &mut String,
) -> Result<(), OutOfMemory>
    requires opened { running.old.world ≡ Some (world_of running.old) }
    requires timely { at ≤ greatest_millis }
    ensures world { OnOk result (running.new
        ≡ in_world running.old (after_events (world_of running.old) (parts_at (world_of running.old) at What.Timers))) }
    ensures told { OnOk result (string_bytes text.new ≡ string_bytes text.old
        ++ lines_of_parts running.old.reading.names running.old.reading.lines (world_of running.old)
        (parts_at (world_of running.old) at What.Timers)) }
{
    speller.lead = Lead::of(alloc, running.reader().lines(), at)?;
    let numbers = running.numbers()?;
    for &node in numbers.as_slice() {
        let what = What::Ask(Ask::Timer { node });
        tell_part(alloc, running, &Event { at, what }, speller, text)?;
    }
    Ok(())
}

/// The event in the last line that was read: it happens, and is told part by part.
pub fn tell_event(
    alloc: Global,
    running: &mut Running,
    event: &Event,
    speller: &mut Speller,
    text: &mut String,
) -> Result<(), OutOfMemory>
    requires opened { running.old.world ≡ Some (world_of running.old) }
    requires timely { event.now.at ≤ greatest_millis }
    requires plausible { IsPlausible event.now.what }
    ensures happens { OnOk result (running.new ≡ happens running.old event.now) }
    ensures told { OnOk result (string_bytes text.new ≡ string_bytes text.old
        ++ lines_of_parts running.old.reading.names running.old.reading.lines (world_of running.old)
        (parts_of (world_of running.old) event.now)) }
{
    match &event.what {
        What::All => tell_all(alloc, running, event.at, speller, text),
        What::Timers => tell_timers(alloc, running, event.at, speller, text),
        _ => tell_part(alloc, running, event, speller, text),
    }
}

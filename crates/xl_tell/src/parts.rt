// One part of an event, and what is told of it.
ghost use Rattle.std.specs.Prelude.{◌≡◌, ◌≤◌, ◌++◌, Some, OnOk};
ghost use Rattle.std.specs.String.{string_bytes};
ghost use Rattle.xl_base.specs.Moments.{greatest_millis};
ghost use Rattle.xl_running.specs.Running.{happens, world_of};
ghost use Rattle.xl_tell.specs.Parts.{part_lines};
ghost use Rattle.xl_world.specs.Schedule.{IsPlausible};

use crate::before::{Before, note_before};
use crate::nodes::push_told;
use crate::reported::push_reported;
use crate::sent::{Speller, push_sent};
use std::alloc::Global;
use xl_base::OutOfMemory;
use xl_noted::Noted;
use xl_running::Running;
use xl_sched::Event;
use xl_told::push_event;
use xl_world::World;

/// The world, which is open.
pub fn world_in(running: &Running) -> &World
    requires { running.now.world ≡ Some (world_of running.now) }
    ensures { result.now ≡ world_of running.now }
{
    let Some(world) = running.world() else {
        unreachable!()
    };
    world
}

/// The place in which all of a node was noted is kept for the next one.
// What was noted is large, and isn't moved for that.
#[inline(always)]
fn keep(spare: &mut Option<Box<Noted>>, before: Before) {
    if let Before::Whole { noted, .. } = before {
        *spare = Some(noted);
    }
}

/// A part of the event in the last line that was read: it happens, and is told.
pub fn tell_part(
    alloc: Global,
    running: &mut Running,
    event: &Event,
    speller: &mut Speller,
    text: &mut String,
) -> Result<(), OutOfMemory>
    requires opened { running.old.world ≡ Some (world_of running.old) }
    requires timely { event.now.at ≤ greatest_millis }
    requires plausible { IsPlausible event.now.what }
    ensures happens { OnOk result (running.new ≡ happens running.old event.now) }
    ensures told { OnOk result (string_bytes text.new ≡ string_bytes text.old
        ++ part_lines running.old.reading.names running.old.reading.lines (world_of running.old) event.now) }
{
    let reader = running.reader();
    push_event(
        text,
        reader,
        &mut speller.hashed,
        &speller.lead,
        reader.lines(),
        event,
    )?;
    let first = world_in(running);
    let sent = first.sent().len();
    let mut before = Before::Nobody;
    note_before(alloc, first, event, speller, &mut before)?;
    let happened = running.event(event)?;
    let reader = running.reader();
    push_reported(
        alloc,
        text,
        reader,
        &mut speller.hashed,
        happened.as_slice(),
    )?;
    let world = world_in(running);
    push_sent(text, reader, speller, world.sent(), sent)?;
    push_told(text, reader, &mut speller.hashed, &before, world)?;
    keep(&mut speller.spare, before);
    Ok(())
}

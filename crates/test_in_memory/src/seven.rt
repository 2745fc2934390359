//! Seven cores in memory, driven by hand: once a second each has its timer, and what it says is handed on to the others
//! at once. One of them is given a transaction. They build two ledgers, and each reports both.
ghost use Rattle.std.specs.Prelude.{◌<◌, ◌≤◌, length};
ghost use Rattle.xl_base.specs.Moments.{greatest_millis};

use crate::member::Member;
use std::alloc::Global;
use std::io;
use xl_base::{LedgerId, Millis, NodeNo, TxId};
use xl_core::{Issued, TimerAnswer, UNTAKEN};
use xl_lists::{List, default_quorum};
use xl_wire::LONGEST_FRAME;

const NUMBERS: [u32; 7] = [1, 2, 3, 4, 5, 6, 7];

/// So long two rounds take.
const SECONDS: Millis = 14;

const TX: TxId = TxId([0xA1; 32]);

/// The seven, who trust each other, or None if memory runs out.
fn open_all(alloc: Global) -> Option<Vec<Member>> {
    let list = List::new(&NUMBERS, default_quorum(7)).ok()?;
    let mut members = Vec::new(alloc);
    for number in NUMBERS {
        let member = Member::open(alloc, NodeNo::new(number)?, &list).ok()?;
        members.push(member).ok()?;
    }
    Some(members)
}

/// The first bytes of an id.
fn brief(id: &LedgerId) -> u32 {
    u32::from_be_bytes([id.0[0], id.0[1], id.0[2], id.0[3]])
}

/// Hands what waits at one member to another.
fn hand_on(members: &mut [Member], from: usize, to: usize, now: Millis)
    requires from { from < length members.old }
    requires to { to < length members.old }
    requires moment { now ≤ greatest_millis }
{
    let mut room = [0; LONGEST_FRAME];
    let receiver = members[to].me();
    let count = members[from].drain(receiver, &mut room);
    if let Some(frames) = room.get(..count) {
        members[to].hear_all(now, frames);
    }
}

/// Hands what waits at one member to each other.
fn hand_around(members: &mut [Member], from: usize, now: Millis)
    requires from { from < length members.old }
    requires moment { now ≤ greatest_millis }
{
    for to in 0..members.len() {
        if to != from {
            hand_on(members, from, to, now);
        }
    }
}

fn how(issued: &Issued) -> &'static str {
    match issued {
        Issued::Full => "full",
        Issued::Partial => "partial",
        Issued::Silent => "silent",
        Issued::Refused(_) => "refused",
    }
}

/// Prints what came of a member's timer, unless nothing did.
fn tell_beat(rt: &HostRuntime, now: Millis, me: NodeNo, beat: &TimerAnswer) -> io::Result<()> {
    match beat {
        TimerAnswer::Nothing => Ok(()),
        TimerAnswer::Closed => println!(rt; "{now} closed {}", me.get()),
        TimerAnswer::Updated => println!(rt; "{now} updated {}", me.get()),
        TimerAnswer::Switched(seq, id) => println!(rt;
            "{now} switched {} {seq} {:08x}",
            me.get(),
            brief(id)
        ),
        TimerAnswer::NoRoom(known) => println!(rt; "{now} no room {} {known}", me.get()),
        TimerAnswer::Built {
            seq,
            id,
            issued,
            ..
        } => {
            println!(rt;
                "{now} built {} {seq} {:08x} {}",
                me.get(),
                brief(id),
                how(issued)
            )
        }
    }
}

/// Prints what a member reports.
fn tell_reports(rt: &HostRuntime, now: Millis, member: &mut Member) -> io::Result<()> {
    for _ in 0..UNTAKEN {
        let Some(report) = member.report() else {
            break;
        };
        println!(rt;
            "{now} reports {} {} {:08x}",
            member.me().get(),
            report.seq,
            brief(&report.id)
        )?;
    }
    Ok(())
}

fn tell_all_reports(rt: &HostRuntime, now: Millis, members: &mut [Member]) -> io::Result<()> {
    for member in members.iter_mut() {
        tell_reports(rt, now, member)?;
    }
    Ok(())
}

/// One timer at each member, after each of which all is handed on.
fn beat_all(rt: &HostRuntime, members: &mut [Member], now: Millis) -> io::Result<()>
    requires { now ≤ greatest_millis }
{
    for k in 0..members.len() {
        let beat = members[k].timer(now);
        tell_beat(rt, now, members[k].me(), &beat)?;
        hand_around(members, k, now);
    }
    tell_all_reports(rt, now, members)
}

fn drive(rt: &HostRuntime, members: &mut [Member]) -> io::Result<()> {
    if let Some(first) = members.first_mut() {
        first.submit(1_000, TX);
        hand_around(members, 0, 1_000);
    }
    for second in 1..=SECONDS {
        beat_all(rt, members, 1_000 * second)?;
    }
    Ok(())
}

/// Drives the seven, and prints what comes of it.
pub fn run(rt: &HostRuntime) -> io::Result<()> {
    match open_all(rt.alloc()) {
        Some(mut members) => drive(rt, &mut members),
        None => println!(rt; "out of memory"),
    }
}

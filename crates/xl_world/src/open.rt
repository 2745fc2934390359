// A world at its start.
ghost use Rattle.std.specs.Prelude.{◌≡◌, ◌++◌, option_to_list, ◌≤◌, ◌||◌, ◌==◌, IfOk, OnOk, Some, None, map, filter, All, if◌then◌else◌};
ghost use Rattle.std.specs.List.{list_any};
ghost use Rattle.xl_ledger.specs.Limits.{greatest_limit, least_limit};
ghost use Rattle.xl_lists.specs.Lists.{is_on};
ghost use Rattle.xl_base.specs.Moments.{greatest_millis};
ghost use Rattle.xl_world.specs.Plans.{is_declared, all_numbers, AreDeclared, AreTimely, Shared};
ghost use Rattle.xl_world.specs.Starts.{list_of, start_of};

use crate::place::{Disk, Place};
use crate::{InForce, Plan, PlanNode};
use std::alloc::Global;
use xl_base::{GREATEST_NODE_NO, NodeNo, OutOfMemory};
use xl_core::{Core, Settings};
use xl_tags::Keys;

/// A core at its start, with room for so many ledgers and validations of a version, and its disk.
fn place(alloc: Global, limit: u32, speak: u8, node: &PlanNode) -> Result<Place, OutOfMemory>
    requires least { least_limit ≤ limit }
    requires most { limit ≤ greatest_limit }
    requires moment { node.now.moment ≤ greatest_millis }
    ensures { IfOk result (λ place. place ≡ start_of (record { limit = limit; speak = speak }) node.now) }
{
    // What every list is, for whose members there are keys.
    let _ = node.list.quorum();
    let settings = Settings {
        me: node.me,
        list: node.list.copy(),
        keys: Keys::of_schedule(node.me),
        limit,
        validating: node.validating,
        speak,
    };
    Ok(Place {
        core: Core::open(alloc, settings, node.moment, 0)?,
        disk: Disk::resting(0),
    })
}

/// The cores at their start.
pub fn places(
    alloc: Global,
    limit: u32,
    speak: u8,
    nodes: &[PlanNode],
) -> Result<Vec<Place>, OutOfMemory>
    requires least { least_limit ≤ limit }
    requires most { limit ≤ greatest_limit }
    requires moments { AreTimely nodes.now }
    ensures opened { IfOk result (λ places.
        places.items ≡ map (start_of (record { limit = limit; speak = speak })) nodes.now) }
    ensures declared { OnOk result (AreDeclared nodes.now) }
{
    let mut places = Vec::with_capacity(alloc, nodes.len())?;
    for node in nodes {
        // What every member number and every list is, of this node.
        let _ = (node.me.get(), node.list.quorum());
        places.push(place(alloc, limit, speak, node)?)?;
    }
    Ok(places)
}

/// The lists with which nodes are declared.
pub fn lists(alloc: Global, nodes: &[PlanNode]) -> Result<Vec<InForce>, OutOfMemory>
    ensures { IfOk result (λ lists. lists.items ≡ map list_of nodes.now) }
{
    let mut lists = Vec::with_capacity(alloc, nodes.len())?;
    for node in nodes {
        lists.push(InForce {
            node: node.me,
            list: node.list.copy(),
        })?;
    }
    Ok(lists)
}

fn is_honest(nodes: &[PlanNode], number: NodeNo) -> bool
    ensures { result ≡ list_any (λ d. d.me == number) nodes.now }
{
    nodes.iter().any(|node| node.me == number)
}

fn is_liar(liars: &[NodeNo], number: NodeNo) -> bool
    ensures { result ≡ is_on liars.now number }
{
    liars.iter().any(|liar| number == *liar)
}

fn is_declared(plan: &Plan, number: NodeNo) -> bool
    ensures { result ≡ is_declared plan.now.liars.items plan.now.nodes.items number }
{
    is_honest(&plan.nodes, number) || is_liar(&plan.liars, number)
}

/// The member of a number, if it is declared.
fn declared(plan: &Plan, number: u32) -> Option<NodeNo>
    requires least { 1 ≤ number }
    requires greatest { number ≤ 64 }
    ensures { result ≡ (if is_declared plan.now.liars.items plan.now.nodes.items number then Some number else None) }
{
    match NodeNo::new(number) {
        Some(member) if is_declared(plan, member) => Some(member),
        _ => None,
    }
}

fn push_some(numbers: &mut Vec<NodeNo>, found: Option<NodeNo>) -> Result<(), OutOfMemory>
    ensures { OnOk result (numbers.new.items ≡ numbers.old.items ++ option_to_list found) }
{
    if let Some(number) = found {
        numbers.push(number)?;
    }
    Ok(())
}

/// All declared numbers, rising.
pub fn numbers(alloc: Global, plan: &Plan) -> Result<Vec<NodeNo>, OutOfMemory>
    ensures { IfOk result (λ numbers.
        numbers.items ≡ filter (is_declared plan.now.liars.items plan.now.nodes.items) all_numbers) }
{
    let mut numbers = Vec::new(alloc);
    for number in 1..=GREATEST_NODE_NO {
        push_some(&mut numbers, declared(plan, number))?;
    }
    Ok(numbers)
}

// The example in the head of xl_world.
ghost use Rattle.std.specs.Prelude.{◌≡◌, ◌≤◌, IfOk};
ghost use Rattle.xl_base.specs.Moments.{greatest_millis};
ghost use Rattle.xl_world.specs.Plans.{AreTimely};
ghost use Rattle.xl_world.specs.Schedule.{IsPlausible};

use std::alloc::Global;
use std::test::Fail;
use xl_base::{LedgerId, NodeNo};
use xl_lists::List;
use xl_sched::{Ask, Event, What};
use xl_world::{Outcome, Plan, PlanNode, World};

const MOMENT: u64 = 1_000;

const ID: LedgerId = LedgerId([7; 32]);

fn member(number: u32) -> Result<NodeNo, Fail> {
    Ok(NodeNo::new(number).ok_or("no member")?)
}

/// A node that trusts nodes 1 and 2, with the quorum 2.
fn declared(me: NodeNo) -> Result<PlanNode, Fail>
    ensures moment { IfOk result (λ node. node.moment ≤ greatest_millis) }
{
    Ok(PlanNode {
        me,
        list: List::new(&[1, 2], 2)?,
        validating: true,
        moment: MOMENT,
    })
}

/// Two such nodes.
fn plan(alloc: Global, one: NodeNo, two: NodeNo) -> Result<Plan, Fail>
    ensures limit { IfOk result (λ plan. plan.limit ≡ 4) }
    ensures timely { IfOk result (λ plan. AreTimely plan.nodes.items) }
{
    let mut nodes = Vec::new(alloc);
    nodes.push(declared(one)?)?;
    nodes.push(declared(two)?)?;
    Ok(Plan {
        nodes,
        liars: Vec::new(alloc),
        limit: 4,
        speak: 1,
    })
}

/// The node issues its full validation of the ledger.
fn issue(node: NodeNo) -> Event
    ensures moment { result.at ≤ greatest_millis }
    ensures plausible { IsPlausible result.what }
{
    Event {
        at: MOMENT,
        what: What::Ask(Ask::Issue {
            node,
            seq: 1,
            id: ID,
            full: true,
        }),
    }
}

/// The node reports the ledger.
fn full(node: NodeNo) -> Outcome {
    Outcome::Full {
        node,
        seq: 1,
        id: ID,
    }
}

#[test]
fn nodes_that_trust_each_other_agree(rt: HostRuntime) -> Result<(), Fail> {
    let alloc = rt.alloc();
    let one = member(1)?;
    let two = member(2)?;
    let plan = plan(alloc, one, two)?;
    let mut world = World::open(alloc, &plan)?;
    world.event(&issue(one))?;
    world.event(&issue(two))?;
    let sent = world.sent().len();
    let all = Event {
        at: MOMENT,
        what: What::All,
    };
    let told = world.event(&all)?;
    let both = [full(two), full(one)];
    assert!(rt; sent == 2 && told.as_slice() == both.as_slice() && world.agreement(one, two));
    Ok(())
}

// The schedule, made and replayed event by event.
ghost use Rattle.std.specs.Prelude.{◌≡◌, ◌≤◌, [], ◌∷◌, IfOk, OnOk};
ghost use Rattle.xl_running.specs.Defaults.{default_limit, default_speak};
ghost use Rattle.xl_gen.specs.Sizes.{most_rounds};
ghost use Rattle.xl_base.specs.Moments.{greatest_millis};
ghost use Rattle.xl_base.specs.Members.{greatest_node_no};
ghost use Rattle.xl_gen.specs.Schedule.{
  at_first,
  events,
  events_at,
  events_of,
  list,
  moment_of,
  node_of,
  plan as plan_of,
  submits,
  submissions_in,
  tx_of,
};
ghost use Rattle.xl_gen.specs.Summaries.{Comes, nothing_told};
ghost use Rattle.xl_world.specs.Schedule.{IsPlausible};

use crate::command::MOST_ROUNDS;
use crate::counts::Counts;
use std::alloc::Global;
use xl_base::{Millis, NodeNo, OutOfMemory, TxId};
use xl_lists::List;
use xl_running::{DEFAULT_LIMIT, DEFAULT_SPEAK};
use xl_sched::{Event, What};
use xl_world::{Plan, PlanNode, World};

/// The nodes are opened at this moment.
pub const FIRST_MOMENT: Millis = 800_000_000_000;

/// So many nodes there are.
const NODES: u32 = 7;

const QUORUM: u32 = 6;

/// This many seconds the most rounds take.
const MOST_SECONDS: u32 = 4 * MOST_ROUNDS + 7;

/// The world so far, and what was told in it.
#[derive(Drop)]
pub struct Generator {
    pub alloc: Global,
    pub world: World,
    pub counts: Counts,
}

/// The list of each of the seven.
fn everyone() -> List
    ensures { result ≡ list }
{
    List::new(&[1, 2, 3, 4, 5, 6, 7], QUORUM).unwrap()
}

/// The member of a number that one may have.
fn member(number: u32) -> NodeNo
    requires least { 1 ≤ number }
    requires greatest { number ≤ greatest_node_no }
    ensures { result ≡ number }
{
    NodeNo::new(number).unwrap()
}

fn node(number: u32) -> PlanNode
    requires least { 1 ≤ number }
    requires most { number ≤ greatest_node_no }
    ensures { result ≡ node_of number }
{
    PlanNode {
        me: member(number),
        list: everyone(),
        validating: true,
        moment: FIRST_MOMENT,
    }
}

/// The seven nodes.
fn plan(alloc: Global) -> Result<Plan, OutOfMemory>
    ensures nodes { IfOk result (λ plan. plan.nodes.items ≡ plan_of) }
    ensures liars { IfOk result (λ plan. plan.liars.items ≡ []) }
    ensures limit { IfOk result (λ plan. plan.limit ≡ default_limit) }
    ensures speak { IfOk result (λ plan. plan.speak ≡ default_speak) }
{
    let mut nodes = Vec::new(alloc);
    for number in 1..=NODES {
        nodes.push(node(number))?;
    }
    Ok(Plan {
        nodes,
        liars: Vec::new(alloc),
        limit: DEFAULT_LIMIT,
        speak: DEFAULT_SPEAK,
    })
}

/// The transaction of a number.
fn tx(number: u32) -> TxId
    ensures { result ≡ tx_of number }
{
    let mut bytes = [0; 32];
    bytes[28..].copy_from_slice(&number.to_be_bytes());
    TxId(bytes)
}

/// The moment of a second.
fn moment(second: u32) -> Millis
    requires { second ≤ MOST_SECONDS }
    ensures value { result ≡ moment_of second }
    ensures within { result ≤ greatest_millis }
{
    FIRST_MOMENT + 1_000 * u64::from(second)
}

impl Generator {
    /// Before anything happens.
    pub fn open(alloc: Global) -> Result<Generator, OutOfMemory>
        ensures world { IfOk result (λ generator. generator.world ≡ at_first) }
        ensures counts { IfOk result (λ generator. generator.counts ≡ nothing_told) }
    {
        Ok(Generator {
            alloc,
            world: World::open(alloc, &plan(alloc)?)?,
            counts: Counts {
                refused: 0,
                built: 0,
                full: 0,
            },
        })
    }

    fn happen(&mut self, at: Millis, what: What) -> Result<(), OutOfMemory>
        requires moment { at ≤ greatest_millis }
        requires plausible { IsPlausible what }
        ensures { OnOk result (Comes self.old self.new (record { at = at; what = what } ∷ [])) }
    {
        let event = Event { at, what };
        let happened = self.world.event(&event)?;
        self.counts = self.counts.with(happened.as_slice())?;
        Ok(())
    }

    /// The transaction of a number is submitted at a node.
    fn submit(&mut self, at: Millis, node: u32, number: u32) -> Result<(), OutOfMemory>
        requires moment { at ≤ greatest_millis }
        requires least { 1 ≤ node }
        requires most { node ≤ greatest_node_no }
        ensures { OnOk result (Comes self.old self.new (events_at at (submits (node ∷ []) number))) }
    {
        let node = member(node);
        let tx = tx(number);
        self.happen(at, What::Submit { node, tx })
    }

    /// The transaction of a number is submitted at the first three nodes.
    fn submit_at_three(&mut self, at: Millis, number: u32) -> Result<(), OutOfMemory>
        requires moment { at ≤ greatest_millis }
        ensures { OnOk result (Comes self.old self.new (events_at at (submits (1 ∷ 2 ∷ 3 ∷ []) number))) }
    {
        self.submit(at, 1, number)?;
        self.submit(at, 2, number)?;
        self.submit(at, 3, number)
    }

    /// What is submitted in a second.
    fn submit_all(&mut self, at: Millis, second: u32) -> Result<(), OutOfMemory>
        requires moment { at ≤ greatest_millis }
        ensures { OnOk result (Comes self.old self.new (events_at at (submissions_in second))) }
    {
        if second == 1 {
            self.submit(at, 1, 1)
        } else if second >= 8 && second % 4 == 0 {
            self.submit_at_three(at, second / 4)
        } else {
            Ok(())
        }
    }

    /// All that happens in a second.
    fn pass(&mut self, second: u32) -> Result<(), OutOfMemory>
        requires { second ≤ MOST_SECONDS }
        ensures { OnOk result (Comes self.old self.new (events_of second)) }
    {
        let at = moment(second);
        self.submit_all(at, second)?;
        self.happen(at, What::Timers)?;
        self.happen(at, What::All)
    }

    /// All that happens in this many rounds.
    pub fn run(&mut self, rounds: u32) -> Result<(), OutOfMemory>
        requires { rounds ≤ most_rounds }
        ensures { OnOk result (Comes self.old self.new (events rounds)) }
    {
        for second in 1..4 * rounds + 8 {
            self.pass(second)?;
        }
        Ok(())
    }
}

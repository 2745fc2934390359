ghost use Rattle.std.specs.Prelude.{◌≡◌, ◌<◌, ◌≤◌, ℕ, length, slice_index_or, slice_set, IfOk, Some, None};
ghost use Rattle.std.specs.Int.{bit_at};
ghost use Rattle.xl_rounds.specs.Positions.{nowhere};
ghost use Rattle.xl_rounds.specs.Rest.{AreKept};

use std::alloc::Global;
use std::marker::Model;
use xl_base::{MOST_MEMBERS, OutOfMemory};
use xl_wire::Proposal;

/// At most one proposal of each member, from member 1 on. What is kept is found without a look at the other places.
#[derive(Drop)]
pub(crate) struct Kept {
    /// Behind a pointer, since they are large.
    proposals: Box<[Option<Proposal>; MOST_MEMBERS]>,
    /// A bit for each place, the lowest for the first: a proposal stands at marked places alone.
    marks: u64,
}

impl Model for Kept {
    ghost use Rattle.std.specs.Prelude.{List, Option};
    ghost use Rattle.xl_wire.specs.declared.proposal.Proposal.{Proposal};
    ghost use Rattle.xl_rounds.specs.Rest.{AreKept};

    ghost Value = { List (Option Proposal) };

    ghost view = { λ a. a.proposals.value };

    ghost invariant = { λ a. AreKept a.marks a.proposals.value };
}

/// The first marked place from this one on, or the one behind the last.
fn next_marked(marks: u64, from: usize) -> usize
    requires { from ≤ 64 }
    ensures within { result ≤ 64 }
    ensures later { from ≤ result }
    ensures passed { (i : ℕ) → from ≤ i → i < result → bit_at marks i ≡ 0 }
{
    if from == MOST_MEMBERS {
        return MOST_MEMBERS;
    }
    let left = marks >> from;
    if left == 0 {
        return MOST_MEMBERS;
    }
    from + left.trailing_zeros() as usize
}

/// Removes what stands at marked places.
fn remove_marked(proposals: &mut [Option<Proposal>; MOST_MEMBERS], marks: u64)
    requires { AreKept marks proposals.old }
    ensures { proposals.new ≡ nowhere }
{
    let mut place = next_marked(marks, 0);
    while place < MOST_MEMBERS {
        proposals[place] = None;
        place = next_marked(marks, place + 1);
    }
}

impl Kept {
    pub(crate) fn none(alloc: Global) -> Result<Kept, OutOfMemory>
        ensures { IfOk result (λ kept. kept ≡ nowhere) }
    {
        Ok(Kept {
            proposals: Box::new(alloc, [None; MOST_MEMBERS])?,
            marks: 0,
        })
    }

    /// No proposal is kept any more.
    pub(crate) fn clear(&mut self)
        ensures { self.new ≡ nowhere }
    {
        remove_marked(&mut self.proposals, self.marks);
        self.marks = 0;
    }

    /// The proposal at a place, if there is one.
    pub(crate) fn at(&self, place: usize) -> &Option<Proposal>
        requires { place < 64 }
        ensures { result.now ≡ slice_index_or self.now place None }
    {
        &self.proposals[place]
    }

    pub(crate) fn put(&mut self, place: usize, p: &Proposal)
        requires { place < 64 }
        ensures { self.new ≡ slice_set self.old place (Some p.now) }
    {
        self.proposals[place] = Some(*p);
        self.marks |= 1 << place;
    }

    pub(crate) fn remove(&mut self, place: usize)
        requires { place < 64 }
        ensures { self.new ≡ slice_set self.old place None }
    {
        self.proposals[place] = None;
        self.marks &= !(1 << place);
    }

    /// A place from this one on, or the one behind the last. No proposal stands before it.
    pub(crate) fn next(&self, from: usize) -> usize
        requires { from ≤ 64 }
        ensures within { result ≤ 64 }
        ensures later { from ≤ result }
        ensures passed { (i : ℕ) → from ≤ i → i < result → slice_index_or self.now i None ≡ None }
    {
        next_marked(self.marks, from)
    }
}

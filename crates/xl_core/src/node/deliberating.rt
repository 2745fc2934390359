ghost use Rattle.std.specs.Prelude.{◌≡◌, ◌≤◌, ℕ, Ok, None, OnErr, length, take};
ghost use Rattle.xl_base.specs.Sets.{IsSet};
ghost use Rattle.std.specs.Result.{result_err};
ghost use Rattle.xl_core.specs.Node.{speech_reply, speech_refusal, taken_as};
ghost use Rattle.xl_core.specs.Replies.{hear_reply, heard_set};
ghost use Rattle.xl_core.specs.declared.hearing.Speech.TheVariants as speech;

use super::Node;
use crate::taken::Heard;
use crate::{Refusal, Taken};
use xl_base::{MOST_IDS, NodeNo, SetId, TxId, secs_of};
use xl_disputes::HashedSets;
use xl_ledger::Branch;
use xl_rounds::Placed;
use xl_wire::{Ids, Proposal};

/// So many ids a set has at most for which a short room is cleared.
const SHORT_SET: usize = 16;

/// Copies the ids of a set to the front of a room, and answers how many they are.
fn copy_ids(ids: &Ids<'_>, room: &mut [TxId]) -> usize
    requires { length ids.now ≤ length room.old }
    ensures count { result ≡ length ids.now }
    ensures copied { take result room.new ≡ ids.now }
    ensures set { IsSet ids.now }
{
    let count = ids.len();
    for place in 0..count {
        room[place] = ids.get(place);
    }
    count
}

/// What was taken of a proposal.
fn taken_as(placed: Placed) -> Taken
    ensures { result ≡ taken_as placed }
{
    match placed {
        Placed::Position => Taken::Position,
        Placed::Later => Taken::Later,
        Placed::Gone => Taken::Gone,
    }
}

/// What was taken, if nothing is reported then.
pub(super) fn unreported(taken: Taken) -> Heard
    ensures { result ≡ record { taken = taken; report = None } }
{
    Heard {
        taken,
        report: None,
    }
}

impl<B: Branch + Drop> Node<B> {
    /// The round places a member's proposal.
    pub(super) fn place(&mut self, from: NodeNo, p: &Proposal, heard: &mut Result<Heard, Refusal>)
        ensures exact { hear_reply heard.new self.new ≡ speech_reply self.old from (speech.Proposal p.now) }
        ensures refused { result_err heard.new ≡ speech_refusal self.old from (speech.Proposal p.now) }
        ensures unchanged { OnErr heard.new (self.new ≡ self.old) }
    {
        let second = secs_of(self.time);
        match self.round.proposal(&self.registry, from, p, second) {
            Ok(placed) => *heard = Ok(unreported(taken_as(placed))),
            Err(why) => *heard = Err(Refusal::from(why)),
        }
    }

    /// A set is the one that the member holds from then on.
    pub(super) fn hold(
        &mut self,
        from: NodeNo,
        ids: &Ids<'_>,
        hashed: &mut HashedSets,
        heard: &mut Result<Heard, Refusal>,
    )
        ensures exact { hear_reply heard.new self.new ≡ speech_reply self.old from (speech.TxSet ids.now) }
        ensures refused { result_err heard.new ≡ None }
    {
        // Few sets are long, so few clear the long room.
        let id = if ids.len() <= SHORT_SET {
            self.hold_through(&mut [TxId([0; 32]); SHORT_SET], from, ids, hashed)
        } else {
            self.hold_long(from, ids, hashed)
        };
        *heard = Ok(unreported(Taken::Set(id)));
    }

    /// Holds a set that is too long for the short room. Inlined, it would clear its room for each set.
    #[inline(never)]
    fn hold_long(&mut self, from: NodeNo, ids: &Ids<'_>, hashed: &mut HashedSets) -> SetId
        ensures { hear_reply (Ok (heard_set result)) self.new ≡ speech_reply self.old from (speech.TxSet ids.now) }
    {
        // A set has this many ids at most.
        let _count = ids.len();
        self.hold_through(&mut [TxId([0; 32]); MOST_IDS], from, ids, hashed)
    }

    /// Copies a set into a room, and holds it.
    fn hold_through(
        &mut self,
        room: &mut [TxId],
        from: NodeNo,
        ids: &Ids<'_>,
        hashed: &mut HashedSets,
    ) -> SetId
        requires { length ids.now ≤ length room.old }
        ensures { hear_reply (Ok (heard_set result)) self.new ≡ speech_reply self.old from (speech.TxSet ids.now) }
    {
        let count = copy_ids(ids, room);
        self.round.hold_with(from, &room[..count], hashed)
    }

    /// A transaction that a member sent is pending from then on, and isn't sent on.
    pub(super) fn take_tx(&mut self, tx: TxId, heard: &mut Result<Heard, Refusal>)
        ensures exact { (from : ℕ) → hear_reply heard.new self.new ≡ speech_reply self.old from (speech.Tx tx) }
        ensures refused { (from : ℕ) → result_err heard.new ≡ speech_refusal self.old from (speech.Tx tx) }
        ensures unchanged { OnErr heard.new (self.new ≡ self.old) }
    {
        match self.round.submit(tx) {
            Ok(()) => *heard = Ok(unreported(Taken::Pending)),
            Err(why) => *heard = Err(Refusal::from(why)),
        }
    }
}

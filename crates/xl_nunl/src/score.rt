ghost use Rattle.std.specs.Prelude.{◌≡◌, ◌+◌, ◌-◌, ◌*◌, ◌%◌, ◌≤◌, ◌<◌, ◌++◌, ℕ, List, [], ◌∷◌, None, length, replicate, slice_index_or, slice_set, IfOk};
ghost use Rattle.xl_ledger.specs.Chains.{seq_at, id_at};
ghost use Rattle.xl_ledger.specs.Walks.{GoesOn};
ghost use Rattle.xl_lists.specs.declared.said.SaidLedger.{SaidLedger};
ghost use Rattle.xl_nunl.specs.Heard.{last_heard, names as names_of, score_of};
ghost use Rattle.xl_nunl.specs.Rings.{Remembers, last_kept, nothing_kept, place_of, score_in, with_heard};

use std::alloc::Global;
use std::marker::Model;
use xl_base::{LedgerId, MOST_MEMBERS, NodeNo, OutOfMemory, Seq};
use xl_ledger::{LedgerNo, Walk};
use xl_lists::SaidLedger;

/// Sequences are alike where they differ by a multiple of this.
pub(crate) const RING: usize = 512;

/// A score counts this many sequences.
pub(crate) const SCORED: u32 = 256;

/// What was heard last of each member, for each of 512 kinds of sequences that are alike.
#[derive(Drop)]
pub struct Scores {
    /// A ring of places for each member, one after the other.
    places: Vec<Option<SaidLedger>>,
}

impl Model for Scores {
    ghost use Rattle.std.specs.Prelude.{◌≡◌, List, Option, length};
    ghost use Rattle.xl_lists.specs.declared.said.SaidLedger.{SaidLedger};

    ghost Value = { List (Option SaidLedger) };

    ghost view = { λ s. s.places.items };

    ghost invariant = { λ s. length s.places.items ≡ 32768 };
}

impl Scores {
    /// Nothing was heard yet. Or `OutOfMemory`.
    pub fn open(alloc: Global) -> Result<Scores, OutOfMemory>
        ensures remembers { IfOk result (λ scores. Remembers scores []) }
        ensures kept { IfOk result (λ scores. scores ≡ nothing_kept) }
    {
        let places = empty_places(alloc)?;
        Ok(Scores { places })
    }

    /// This member said that this ledger is the one of this sequence.
    pub fn heard(&mut self, member: NodeNo, seq: Seq, id: LedgerId)
        ensures remembers { (heard : List SaidLedger) → Remembers self.old heard
            → Remembers self.new (heard ++ record { member = member; seq = seq; id = id } ∷ []) }
        ensures kept { self.new ≡ with_heard self.old (record { member = member; seq = seq; id = id }) }
    {
        self.places[place_of(member, seq)] = Some(SaidLedger { member, seq, id });
    }

    /// Forgets all that was heard.
    pub fn clear(&mut self)
        ensures remembers { Remembers self.new [] }
        ensures kept { self.new ≡ nothing_kept }
    {
        for place in self.places.iter_mut() {
            *place = None;
        }
    }

    /// The score of a member at a flag ledger: for how many of the 256 sequences up to its own the last that was heard
    /// of the member, among sequences that are alike, is of that sequence and names the ledger of it on the flag
    /// ledger's chain.
    pub fn score(&self, member: NodeNo, walk: &mut Walk<'_>, flag: LedgerNo) -> u32
        requires known { flag < length walk.old.ledgers.headers }
        requires high { 255 ≤ seq_at walk.old.ledgers.headers flag }
        ensures value { (heard : List SaidLedger) → Remembers self.now heard
            → result ≡ score_of walk.old.ledgers.headers heard member flag }
        ensures kept { result ≡ score_in walk.old.ledgers.headers self.now member flag }
        ensures most { result ≤ 256 }
        ensures goes_on { GoesOn walk.old walk.new }
    {
        let top = walk.seq_of(flag);
        let mut at = flag;
        let mut score = 0;
        for back in 0..SCORED {
            let seq = top - back;
            at = walk.ancestor(at, seq);
            if self.agrees(member, seq, walk.id_at(at)) {
                score += 1;
            }
        }
        score
    }

    /// Whether the last that was heard of the member, among sequences that are alike, names this ledger.
    fn agrees(&self, member: NodeNo, seq: Seq, id: LedgerId) -> bool
        ensures value { (heard : List SaidLedger) → Remembers self.now heard
            → result ≡ names_of (last_heard heard member seq) seq id }
        ensures kept { result ≡ names_of (last_kept self.now member seq) seq id }
    {
        names(&self.places[place_of(member, seq)], seq, id)
    }
}

/// No place has anything yet.
fn empty_places(alloc: Global) -> Result<Vec<Option<SaidLedger>>, OutOfMemory>
    ensures { IfOk result (λ places. places.items ≡ replicate 32768 None) }
{
    let mut places = Vec::with_capacity(alloc, MOST_MEMBERS * RING)?;
    for _ in 0..MOST_MEMBERS * RING {
        places.push_reserved(None);
    }
    Ok(places)
}

/// The place of a sequence in the ring of a member.
fn place_of(member: NodeNo, seq: Seq) -> usize
    ensures value { result ≡ place_of member seq }
    ensures within { result < 32768 }
    ensures first { 1 ≤ member }
    ensures last { member ≤ 64 }
{
    (member.get() as usize - 1) * RING + seq as usize % RING
}

/// Whether what was heard names this ledger for this sequence.
fn names(heard: &Option<SaidLedger>, seq: Seq, id: LedgerId) -> bool
    ensures { result ≡ names_of heard.now seq id }
{
    match heard {
        Some(said) => said.seq == seq && said.id == id,
        None => false,
    }
}

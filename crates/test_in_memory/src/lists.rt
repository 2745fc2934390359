use std::alloc::Global;
use xl_base::{MOST_IDS, NodeNo, OutOfMemory, SetId, TxId, set_id};
use xl_disputes::Votes;

/// A counted set: our own at 0, and a member's at its number.
#[derive(Drop)]
struct Counted {
    place: u32,
    id: SetId,
    ids: Vec<TxId>,
}

/// Our own set, held sets and positions in lists, which each question walks over.
#[derive(Drop)]
pub struct Lists {
    alloc: Global,
    sets: Vec<Counted>,
    positions: Vec<(NodeNo, SetId)>,
}

impl Lists {
    pub fn open(alloc: Global) -> Result<Lists, OutOfMemory> {
        let mut lists = Lists {
            alloc,
            sets: Vec::new(alloc),
            positions: Vec::new(alloc),
        };
        lists.hold(0, &[])?;
        Ok(lists)
    }

    pub fn reset(&mut self) -> Result<(), OutOfMemory> {
        self.sets.clear();
        self.positions.clear();
        self.hold(0, &[])
    }

    pub fn hold(&mut self, place: u32, set: &[TxId]) -> Result<(), OutOfMemory> {
        self.release(place);
        let id = set_id(set);
        let ids = Vec::from_slice(self.alloc, set)?;
        self.sets.push(Counted { place, id, ids })?;
        Ok(())
    }

    pub fn release(&mut self, place: u32) {
        self.sets.retain(|set| set.place != place);
    }

    pub fn position(&mut self, member: NodeNo, set: SetId) -> Result<(), OutOfMemory> {
        self.leave(member);
        self.positions.push((member, set))?;
        Ok(())
    }

    pub fn leave(&mut self, member: NodeNo) {
        self.positions.retain(|position| position.0 != member);
    }

    /// Whether these ids are our own set, and this is its id.
    pub fn owns(&self, ids: &[TxId], id: SetId) -> bool {
        let is_own = |set: &Counted| set.place == 0 && set.id == id && set.ids.as_slice() == ids;
        self.sets.iter().any(is_own)
    }

    /// What the counted set of this id says of the transaction, if there is one.
    fn says(&self, id: &SetId, tx: &TxId) -> Option<bool> {
        for set in &self.sets {
            if set.id == *id {
                return Some(set.ids.contains(tx));
            }
        }
        None
    }

    pub fn votes_of(&self, tx: &TxId) -> Option<Votes> {
        let mut is_counted = false;
        let mut votes = Votes {
            yays: 0,
            nays: 0,
            ours: false,
        };
        for set in &self.sets {
            if set.ids.contains(tx) {
                is_counted = true;
                votes.ours = votes.ours || set.place == 0;
            }
        }
        for position in &self.positions {
            match self.says(&position.1, tx) {
                Some(true) => votes.yays = votes.yays.saturating_add(1),
                Some(false) => votes.nays = votes.nays.saturating_add(1),
                None => {}
            }
        }
        is_counted.then_some(votes)
    }

    /// Takes those that win of all transactions, in rising order, as our own set, and at most 256 of them.
    pub fn update(
        &mut self,
        all: &[TxId],
        percent: u64,
        proposing: bool,
    ) -> Result<(), OutOfMemory> {
        let mut next = Vec::new(self.alloc);
        for tx in all {
            let Some(votes) = self.votes_of(tx) else {
                continue
            };
            if next.len() < MOST_IDS && wins(&votes, needed(percent), proposing) {
                next.push(*tx)?;
            }
        }
        self.hold(0, &next)
    }
}

/// The percent that a yes vote must exceed after so many percent of the previous round's time.
fn needed(percent: u64) -> u64 {
    if percent < 50 {
        50
    } else if percent < 85 {
        65
    } else if percent < 200 {
        70
    } else {
        95
    }
}

/// Whether our next vote is yes. It stays if nobody says otherwise.
fn wins(votes: &Votes, needed: u64, proposing: bool) -> bool {
    let (yays, nays) = (u64::from(votes.yays), u64::from(votes.nays));
    if votes.ours && nays == 0 || !votes.ours && yays == 0 {
        return votes.ours;
    }
    if !proposing {
        return yays > nays;
    }
    (yays + u64::from(votes.ours)) * 100 / (yays + nays + 1) > needed
}

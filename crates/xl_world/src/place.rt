use xl_base::Seq;
use xl_core::Core;
use xl_trie::Trie;

/// How a save is answered, and what it leaves.
#[derive(Clone, Copy, PartialEq, Eq)]
pub enum Fate {
    /// With Ok.
    Saved,
    /// With Failed; the former number stays.
    Unwritten,
    /// With Failed, though the number was written.
    Written,
}

/// What outlives a stop of a node: the number in force; after a save that failed the one that was asked, and whether
/// it was written all the same. Also how often a save has failed, up to the greatest `u64`.
#[derive(Clone, Copy, PartialEq, Eq)]
pub struct Disk {
    pub in_force: Seq,
    pub asked: Option<Seq>,
    pub written: bool,
    pub faults: u64,
}

impl Disk {
    ghost use Rattle.std.specs.Prelude.{◌≡◌, ◌≤◌, Some};
    ghost use Rattle.xl_world.specs.Disk.{resting, restored, after_failed, found, left_by};

    /// A disk that never failed, and holds this number.
    pub fn resting(seq: Seq) -> Disk
        ensures { result ≡ resting seq }
    {
        Disk {
            in_force: seq,
            asked: None,
            written: false,
            faults: 0,
        }
    }

    /// The disk when its node is opened again with this number.
    pub fn restored(&self, seq: Seq) -> Disk
        ensures { result ≡ restored self.now seq }
    {
        Disk {
            in_force: seq,
            asked: None,
            written: false,
            ..*self
        }
    }

    /// The disk after a save that failed.
    pub fn after_failed(&self, seq: Seq, written: bool) -> Disk
        ensures value { result ≡ after_failed self.now seq written }
        ensures later { self.now.faults ≤ result.faults }
    {
        Disk {
            asked: Some(seq),
            written,
            faults: self.faults.saturating_add(1),
            ..*self
        }
    }

    /// The number that is left by a cut in a save of this number, the new one or not.
    pub fn left_by(&self, new: bool, saved: Seq) -> Seq
        ensures { result ≡ left_by self.now new (Some saved) }
    {
        if new { saved } else { self.in_force }
    }

    /// The number that a restart finds.
    pub fn found(&self) -> Seq
        ensures { result ≡ found self.now }
    {
        if self.written {
            self.asked.unwrap_or(self.in_force)
        } else {
            self.in_force
        }
    }
}

/// The core of a node, whose votes stand in a compressed trie.
pub type NodeCore = Core<Trie>;

/// A core and its disk.
#[derive(Drop)]
pub struct Place {
    pub core: NodeCore,
    pub disk: Disk,
}

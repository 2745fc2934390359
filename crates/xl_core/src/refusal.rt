ghost use Rattle.std.specs.Prelude.{◌≡◌};
ghost use Rattle.xl_core.specs.Refusals.{refusal_from, round_from, code_of};

use xl_base::{LedgerId, Secs, Seq, TxId};
use xl_ledger::AddRefusal;
use xl_rounds::RoundRefusal;
use xl_tags::TagRefusal;
use xl_validations::ValRefusal;
use xl_wire::WireRefusal;

/// Why a node refuses an event, with the values that show it. Only its time has gone on then, and what expires by it;
/// but a save that failed is remembered.
#[derive(Clone, Copy, PartialEq, Eq)]
pub enum Refusal {
    /// The bytes begin no frame, or the frame's body is none.
    Frame(WireRefusal),
    /// The bytes end within a frame: this many lack.
    Short(usize),
    /// This many bytes follow the frame.
    Extra(usize),
    /// The frame isn't for the node, not from another listed member, or not sealed by their key.
    Tag(TagRefusal),
    /// The header isn't added to the known ledgers.
    Header(AddRefusal),
    /// The validation isn't current: the second now, and the second at which it was signed.
    Stale(Secs, Secs),
    /// The sender's row holds a validation of this sequence and this id.
    Repeat(LedgerId),
    /// The sender's row holds a validation of this sequence and another id, which is given.
    Conflict(LedgerId),
    /// The sequence is at most the greatest one taken from the sender, which is given.
    OldSeq(Seq),
    /// The transaction is pending.
    Pending(TxId),
    /// This many transactions are pending, as many as may be.
    PoolFull(u32),
    /// The proposal builds on another ledger than the round's, which is given, and on one that is known and not later
    /// than the round's.
    WrongPrev(LedgerId),
    /// Its propose sequence isn't above that of the member's position, which is given.
    OldPosition(u32),
    /// The member of this number left the round.
    Left(u32),
    /// The proposal was made twenty seconds or more before the second now, which is given.
    StaleProposal(Secs),
    /// The sequence to be issued is at most the last one that was saved, which is given.
    NotAfter(Seq),
    /// The save of this sequence failed since the node opened: it issues nothing then.
    IssuingOff(Seq),
    /// The save failed in this call; the keeper's count of faults then is given.
    KeepFault(u64),
    /// The list isn't set: its member of this number isn't the node and has no key, and each lower one has.
    NoKey(u32),
}

impl From<WireRefusal> for Refusal {
    ghost use Rattle.xl_core.specs.declared.refusal.Refusal.TheVariants as node;

    ghost from_gives = { λ why refusal. refusal ≡ node.Frame why };

    fn from(why: WireRefusal) -> Refusal {
        Refusal::Frame(why)
    }
}

impl From<TagRefusal> for Refusal {
    ghost use Rattle.xl_core.specs.declared.refusal.Refusal.TheVariants as node;

    ghost from_gives = { λ why refusal. refusal ≡ node.Tag why };

    fn from(why: TagRefusal) -> Refusal {
        Refusal::Tag(why)
    }
}

impl From<ValRefusal> for Refusal {
    ghost from_gives = { λ why refusal. refusal ≡ refusal_from why };

    fn from(why: ValRefusal) -> Refusal {
        match why {
            ValRefusal::Stale(now, signed) => Refusal::Stale(now, signed),
            ValRefusal::Repeat(id) => Refusal::Repeat(id),
            ValRefusal::Conflict(id) => Refusal::Conflict(id),
            ValRefusal::OldSeq(largest) => Refusal::OldSeq(largest),
        }
    }
}

impl From<AddRefusal> for Refusal {
    ghost use Rattle.xl_core.specs.declared.refusal.Refusal.TheVariants as node;

    ghost from_gives = { λ why refusal. refusal ≡ node.Header why };

    fn from(why: AddRefusal) -> Refusal {
        Refusal::Header(why)
    }
}

impl From<RoundRefusal> for Refusal {
    ghost from_gives = { λ why refusal. refusal ≡ round_from why };

    fn from(why: RoundRefusal) -> Refusal {
        match why {
            RoundRefusal::Pending(tx) => Refusal::Pending(tx),
            RoundRefusal::PoolFull(most) => Refusal::PoolFull(most),
            RoundRefusal::WrongPrev(ours) => Refusal::WrongPrev(ours),
            RoundRefusal::OldPosition(kept) => Refusal::OldPosition(kept),
            RoundRefusal::Left(member) => Refusal::Left(member.get()),
            RoundRefusal::StaleProposal(now) => Refusal::StaleProposal(now),
        }
    }
}

impl Refusal {
    /// The number of the refusal.
    pub fn code(&self) -> u32
        ensures { result ≡ code_of self.now }
    {
        match self {
            Refusal::Frame(why) => why.code(),
            Refusal::Tag(why) => why.code(),
            Refusal::Header(why) => why.code(),
            Refusal::Stale(now, signed) => ValRefusal::Stale(*now, *signed).code(),
            Refusal::Repeat(id) => ValRefusal::Repeat(*id).code(),
            Refusal::Conflict(id) => ValRefusal::Conflict(*id).code(),
            Refusal::OldSeq(largest) => ValRefusal::OldSeq(*largest).code(),
            Refusal::Pending(tx) => RoundRefusal::Pending(*tx).code(),
            Refusal::PoolFull(most) => RoundRefusal::PoolFull(*most).code(),
            Refusal::WrongPrev(ours) => RoundRefusal::WrongPrev(*ours).code(),
            Refusal::OldPosition(kept) => RoundRefusal::OldPosition(*kept).code(),
            Refusal::Left(_) => 28,
            Refusal::StaleProposal(now) => RoundRefusal::StaleProposal(*now).code(),
            Refusal::NotAfter(_) => 30,
            Refusal::IssuingOff(_) => 31,
            Refusal::KeepFault(_) => 32,
            Refusal::Short(_) => 45,
            Refusal::Extra(_) => 46,
            Refusal::NoKey(_) => 48,
        }
    }
}

ghost use Rattle.std.specs.Prelude.{◌≤◌};
ghost use Rattle.xl_base.specs.Moments.{greatest_millis};

use std::alloc::Global;
use xl_base::{LedgerId, Millis, NodeNo, OutOfMemory, TxId};
use xl_core::{Core, Report, Settings, TimerAnswer};
use xl_io::PlainKeeper;
use xl_lists::List;
use xl_tags::Keys;
use xl_trie::Trie;
use xl_wire::{LONGEST_FRAME, Parted, split};

/// When a member opens.
const OPENING: Millis = 1_000;

/// How many ledgers a member may know.
const LIMIT: u32 = 16;

/// How many saves its keeper tells.
const SAVES: usize = 16;

/// A core and what outlives it.
#[derive(Drop)]
pub struct Member {
    core: Core<Trie>,
    keeper: PlainKeeper,
}

impl Member {
    /// A validator of this number, with this list.
    pub fn open(alloc: Global, me: NodeNo, list: &List) -> Result<Member, OutOfMemory> {
        // What every list is, for whose members there are keys.
        let _ = list.quorum();
        let settings = Settings {
            me,
            list: list.copy(),
            keys: Keys::of_schedule(me),
            limit: LIMIT,
            validating: true,
            speak: 1,
        };
        Ok(Member {
            core: Core::open(alloc, settings, OPENING, 0)?,
            keeper: PlainKeeper::new(alloc, SAVES)?,
        })
    }

    pub fn me(&self) -> NodeNo {
        self.core.node().me()
    }

    /// Whether the transaction was taken.
    pub fn submit(&mut self, now: Millis, tx: TxId) -> bool
        requires { now ≤ greatest_millis }
    {
        self.core.submit(now, tx).is_ok()
    }

    pub fn timer(&mut self, now: Millis) -> TimerAnswer
        requires { now ≤ greatest_millis }
    {
        self.core.timer(now, &mut self.keeper)
    }

    /// The frames that wait for another member, as many as the room holds, and how many bytes they have.
    pub fn drain(&mut self, to: NodeNo, room: &mut [u8; LONGEST_FRAME]) -> usize {
        if self.core.node().keys().has(to) {
            self.core.drain(to, room)
        } else {
            0
        }
    }

    /// Hears each of these frames.
    pub fn hear_all(&mut self, now: Millis, frames: &[u8])
        requires { now ≤ greatest_millis }
    {
        let mut rest = frames;
        // Each frame has some bytes.
        for _ in 0..frames.len() {
            let Parted::Whole(raw) = split(rest) else {
                break;
            };
            let Some((frame, later)) = rest.split_at_checked(raw.length) else {
                break;
            };
            // What isn't taken changes nothing but the time.
            let _ = self.core.frame(now, frame);
            rest = later;
        }
    }

    /// The oldest report that was not handed out yet.
    pub fn report(&mut self) -> Option<Report> {
        let mut room = [Report {
            seq: 0,
            id: LedgerId([0; 32]),
        }];
        if self.core.reports(&mut room) == 1 {
            Some(room[0])
        } else {
            None
        }
    }
}

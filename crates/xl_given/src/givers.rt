// Who gave a frame, without a walk over all that was given.
ghost use Rattle.std.specs.Prelude.{◌≡◌, ◌<◌, option_map, length, IfOk, Some};
ghost use Rattle.xl_given.specs.Given.{count_given as count_given_of, giver_of as giver_among, is_given};
ghost use Rattle.xl_given.specs.Kept.{giver_seen, noted_seen, IsKept};

use crate::{Noted, NotedFrames};
use std::alloc::Global;
use std::collections::BTreeMap;
use xl_base::{NodeNo, OutOfMemory};

/// An entry of a journal, both counted from 1, in which a frame was given.
#[derive(Clone, Copy, PartialEq, Eq)]
pub struct Giver {
    pub journal: u32,
    pub entry: u64,
}

/// The first giver of each frame, by the member that sent it and the frame's bytes.
pub type GiversByFrame<'a> = BTreeMap<(u32, &'a [u8]), Giver>;

/// The first givers of all frames that were given.
pub fn givers_of<'a>(
    alloc: Global,
    given: &'a NotedFrames,
) -> Result<GiversByFrame<'a>, OutOfMemory>
    ensures { IfOk result (λ givers. IsKept givers given.now) }
{
    let mut givers: GiversByFrame<'a> = BTreeMap::new(alloc);
    for place in 0..given.len() {
        let noted = given.at(place);
        let key = (noted.member.get(), noted.frame);
        let giver = Giver {
            journal: noted.journal,
            entry: noted.entry,
        };
        let first = givers.get(&key).copied().unwrap_or(giver);
        givers.insert(key, first)?;
    }
    Ok(givers)
}

/// The first entry in which the member gave the frame, if there is one.
pub fn giver_of<'a>(givers: &GiversByFrame<'a>, member: NodeNo, frame: &'a [u8]) -> Option<Giver>
    ensures { (given : _) → IsKept givers.now given
        → result ≡ option_map giver_seen (giver_among given member frame.now) }
{
    givers.get(&(member.get(), frame)).copied()
}

/// How many of the heard frames were given by their senders.
pub fn count_given<'a>(heard: &'a NotedFrames, givers: &GiversByFrame<'a>) -> usize
    ensures { (given : _) → IsKept givers.now given → result ≡ count_given_of given heard.now }
{
    let mut count = 0;
    for place in 0..heard.len() {
        let noted = heard.at(place);
        if giver_of(givers, noted.member, noted.frame).is_some() {
            count += 1;
        }
    }
    count
}

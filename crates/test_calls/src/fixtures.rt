ghost use Rattle.std.specs.Prelude.{◌≡◌, ◌<◌, ◌≤◌, ◌^◌, IfOk, IsSome};
ghost use Rattle.xl_tags.specs.Rings.{key_of};
ghost use Rattle.xl_store.specs.Stores.{start_of, IsOf};

use std::alloc::Global;
use std::test::Fail;
use xl_base::NodeNo;
use xl_core::{Core, CoreEvent, Settings};
use xl_io::PlainKeeper;
use xl_lists::List;
use xl_store::{Entries, Pass, Store};
use xl_tags::Keys;
use xl_trie::Trie;

pub type Stored = Store<Trie, PlainKeeper>;

/// A transaction that node 2 says to node 1, with the tag by the schedule's key of the two.
pub const FRAME: [u8; 78] = [
    0x58, 0x4C, 1, 5, 0, 32, 0, 0, 0, 2, 0, 0, 0, 1, 7, 7, 7, 7, 7, 7, 7, 7, 7, 7, 7, 7, 7, 7, 7,
    7, 7, 7, 7, 7, 7, 7, 7, 7, 7, 7, 7, 7, 7, 7, 7, 7, 0x5A, 0x03, 0x58, 0xE5, 0x84, 0x5E, 0xEC,
    0xB6, 0x17, 0x9E, 0x2A, 0xF7, 0x53, 0x8B, 0x95, 0xDE, 0x83, 0x8A, 0xC0, 0x31, 0xFD, 0x18, 0x34,
    0xD4, 0x4C, 0x8A, 0x38, 0x38, 0xDE, 0x3C, 0x39, 0x9F,
];

/// A core of node 1 that trusts node 2, and has a key for each other number.
fn core_of(alloc: Global) -> Result<Core<Trie>, Fail> {
    let me = NodeNo::new(1).ok_or("no member")?;
    let list = List::new(&[2], 1)?;
    // What every list is, for whose members there are keys.
    let _ = list.quorum();
    let settings = Settings {
        me,
        list,
        keys: Keys::of_schedule(me),
        limit: 2,
        validating: true,
        speak: 1,
    };
    Ok(Core::open(alloc, settings, 1_000, 0)?)
}

/// Such a core, which has a key for the member.
fn core_with(alloc: Global, member: NodeNo) -> Result<Core<Trie>, Fail>
    ensures peer { IfOk result (λ core. IsSome (key_of core.node.keys member)) }
{
    let core = core_of(alloc)?;
    if core.node().keys().has(member) {
        Ok(core)
    } else {
        Err(Fail::from("no key"))
    }
}

/// A store of this many turns over a core, and its first pass.
fn store_of(alloc: Global, core: Core<Trie>, turns: u64) -> Result<(Stored, Pass), Fail>
    requires turns { (0 < turns) × (turns ≤ 2 ^ 62) }
    ensures pass { IfOk result (λ opened. IsOf opened.0 opened.1) }
    ensures start { IfOk result (λ opened. start_of opened.0 ≡ core) }
{
    let keeper = PlainKeeper::new(alloc, 0)?;
    match Store::open(alloc, core, keeper, turns) {
        Ok(opened) => Ok(opened),
        Err(_) => Err(Fail::from("no memory")),
    }
}

/// A store of this many turns over node 1, and its first pass. The member is a peer.
pub fn stored(alloc: Global, turns: u64, member: NodeNo) -> Result<(Stored, Pass), Fail>
    requires turns { (0 < turns) × (turns ≤ 2 ^ 62) }
    ensures pass { IfOk result (λ opened. IsOf opened.0 opened.1) }
    ensures peer { IfOk result (λ opened. IsSome (key_of (start_of opened.0).node.keys member)) }
{
    store_of(alloc, core_with(alloc, member)?, turns)
}

/// How many events of a journal are frames, and how many greet.
pub fn frames_and_greetings(entries: Entries) -> (u64, u64) {
    let (mut frames, mut greetings) = (0u64, 0u64);
    let mut entries = entries;
    for _ in 0..1_000_000 {
        match entries.next() {
            Some(entry) => match entry.event {
                CoreEvent::Frame { .. } => frames = frames.saturating_add(1),
                CoreEvent::Greet { .. } => greetings = greetings.saturating_add(1),
                _ => {}
            },
            None => break,
        }
    }
    (frames, greetings)
}

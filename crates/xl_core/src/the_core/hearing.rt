// What a core hears.
ghost use Rattle.std.specs.Prelude.{◌≡◌, ◌≢◌, ◌≤◌, IsTrue, OnErr};
ghost use Rattle.std.specs.Result.{result_err};
ghost use Rattle.xl_base.specs.Moments.{greatest_millis};
ghost use Rattle.xl_io.specs.Keepers.{Held};
ghost use Rattle.xl_lists.specs.Lists.{is_on};
ghost use Rattle.xl_wire.specs.Heads.{parts, split_of};
ghost use Rattle.xl_wire.specs.Raws.{RawFrame, SpellsRaw, raw_frame};
ghost use Rattle.xl_wire.specs.declared.body.Body.{Body};
ghost use Rattle.xl_core.specs.Core.{core_happens, after_reply};
ghost use Rattle.xl_core.specs.Hearing.{Carries, bytes_as_sealed, bytes_with, speech_of};
ghost use Rattle.xl_core.specs.Issuing.Save.{Kept};
ghost use Rattle.xl_core.specs.Node.{at_moment, frame_refusal, speech_refusal, speech_reply};
ghost use Rattle.xl_core.specs.Replies.{Answers, taken_answer};
ghost use Rattle.xl_core.specs.Stops.{IsCovered};
ghost use Rattle.xl_core.specs.declared.event.CoreEvent.TheVariants.{Frame};

use super::Core;
use super::untaken::push_report;
use crate::hearing::Tags;
use crate::taken::UNHEARD;
use crate::{Hashes, Refusal, Taken};
use xl_base::{Millis, NodeNo};
use xl_ledger::Branch;
use xl_wire::{Body, Parted, Raw, split};

impl<B: Branch + Drop> Core<B> {
    /// Hears bytes that come, and says what was taken. What the node reports waits to be taken, and nothing is sent.
    ///
    /// Refused as the node refuses them. First the time is set, and rows expire; nothing else changes then.
    pub fn frame(&mut self, now: Millis, bytes: &[u8]) -> Result<Taken, Refusal>
        requires moment { now ≤ greatest_millis }
        ensures step { Answers (core_happens self.old (Frame now bytes.now) Kept) self.new (taken_answer result) }
        ensures refused { result_err result ≡ frame_refusal (at_moment now self.old.node) bytes.now }
        // What another listed member seals is refused for what the node knows of it alone, and else it is taken.
        ensures complete { (f : RawFrame) (body : Body) →
            Carries self.old.node.keys self.old.node.list.members bytes.now f body →
            result_err result ≡ speech_refusal (at_moment now self.old.node) f.from (speech_of body) }
        ensures unchanged { OnErr result (self.new ≡ record self.old { node = at_moment now self.old.node }) }
        ensures unsent { self.new.waiting ≡ self.old.waiting }
        ensures stop { (held : Held) → IsCovered held self.old → IsCovered held self.new }
    {
        let parted = split(bytes);
        self.hear(now, Tags::Tested, &parted, bytes, &mut Hashes::none())
    }

    /// Hears a whole frame that was split off already, as `frame` hears its bytes.
    ///
    /// Refused as the node refuses them. First the time is set, and rows expire; nothing else changes then.
    pub fn whole_frame(
        &mut self,
        now: Millis,
        raw: &Raw<'_>,
        bytes: &[u8],
    ) -> Result<Taken, Refusal>
        requires moment { now ≤ greatest_millis }
        requires whole { SpellsRaw (raw_frame raw.now) bytes.now }
        ensures step { Answers (core_happens self.old (Frame now bytes.now) Kept) self.new (taken_answer result) }
        ensures refused { result_err result ≡ frame_refusal (at_moment now self.old.node) bytes.now }
        ensures complete { (f : RawFrame) (body : Body) →
            Carries self.old.node.keys self.old.node.list.members bytes.now f body →
            result_err result ≡ speech_refusal (at_moment now self.old.node) f.from (speech_of body) }
        ensures unchanged { OnErr result (self.new ≡ record self.old { node = at_moment now self.old.node }) }
        ensures unsent { self.new.waiting ≡ self.old.waiting }
        ensures stop { (held : Held) → IsCovered held self.old → IsCovered held self.new }
    {
        let parted = Parted::Whole(*raw);
        self.hear(now, Tags::Tested, &parted, bytes, &mut Hashes::none())
    }

    /// Hears bytes that come as if their sender had sealed them: the tag, the last 32 bytes of a frame, isn't looked at
    /// and taken as the one under our key. If it is that one, this is `frame`, for less.
    ///
    /// It is for frames whose sender is known anyway, as those of a world: what comes over a link goes to `frame`.
    ///
    /// Refused as the node refuses, never for the tag. First the time is set, and rows expire; all else stays then.
    pub fn frame_as_sealed(
        &mut self,
        now: Millis,
        bytes: &[u8],
        hashes: &mut Hashes,
    ) -> Result<Taken, Refusal>
        requires moment { now ≤ greatest_millis }
        ensures step { Answers (core_happens self.old (Frame now (bytes_as_sealed self.old.node.keys bytes.now)) Kept)
            self.new (taken_answer result) }
        ensures refused { result_err result
            ≡ frame_refusal (at_moment now self.old.node) (bytes_as_sealed self.old.node.keys bytes.now) }
        ensures unchanged { OnErr result (self.new ≡ record self.old { node = at_moment now self.old.node }) }
        ensures unsent { self.new.waiting ≡ self.old.waiting }
        ensures stop { (held : Held) → IsCovered held self.old → IsCovered held self.new }
    {
        self.hear(now, Tags::Assumed, &split(bytes), bytes, hashes)
    }

    /// Hears a listed member's body as `frame` hears each frame that carries it, for less: it is for a world's frames.
    /// Refused as the node refuses what is said. First the time is set, and rows expire; nothing else changes then.
    pub fn frame_saying(
        &mut self,
        now: Millis,
        from: NodeNo,
        body: &Body<'_>,
        hashes: &mut Hashes,
    ) -> Result<Taken, Refusal>
        requires moment { now ≤ greatest_millis }
        requires other { from ≢ self.old.node.me }
        requires listed { IsTrue (is_on self.old.node.list.members from) }
        ensures step { Answers (after_reply self.old (speech_reply (at_moment now self.old.node) from (speech_of body.now)))
            self.new (taken_answer result) }
        ensures carried { (bytes : _) (f : RawFrame) → f.from ≡ from →
            Carries self.old.node.keys self.old.node.list.members bytes f body.now →
            Answers (core_happens self.old (Frame now bytes) Kept) self.new (taken_answer result) }
        ensures unchanged { OnErr result (self.new ≡ record self.old { node = at_moment now self.old.node }) }
        ensures unsent { self.new.waiting ≡ self.old.waiting }
    {
        let mut heard = UNHEARD;
        self.node.hear_body(now, from, body, hashes, &mut heard);
        match &heard {
            Ok(heard) => {
                push_report(&mut self.untaken, &heard.report);
                return Ok(heard.taken);
            }
            Err(why) => return Err(*why),
        }
    }

    /// Hears what was split off bytes, with the tag tested or assumed.
    fn hear(
        &mut self,
        now: Millis,
        tags: Tags,
        parted: &Parted<'_>,
        bytes: &[u8],
        hashes: &mut Hashes,
    ) -> Result<Taken, Refusal>
        requires moment { now ≤ greatest_millis }
        requires parted { parts parted.now ≡ split_of bytes.now }
        ensures step { Answers (core_happens self.old (Frame now (bytes_with tags self.old.node.keys bytes.now)) Kept)
            self.new (taken_answer result) }
        ensures refused { result_err result
            ≡ frame_refusal (at_moment now self.old.node) (bytes_with tags self.old.node.keys bytes.now) }
        ensures unchanged { OnErr result (self.new ≡ record self.old { node = at_moment now self.old.node }) }
        ensures unsent { self.new.waiting ≡ self.old.waiting }
        ensures stop { (held : Held) → IsCovered held self.old → IsCovered held self.new }
    {
        let mut heard = UNHEARD;
        self.node.hear(now, tags, parted, bytes, hashes, &mut heard);
        match &heard {
            Ok(heard) => {
                push_report(&mut self.untaken, &heard.report);
                return Ok(heard.taken);
            }
            Err(why) => return Err(*why),
        }
    }
}

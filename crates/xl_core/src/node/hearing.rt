ghost use Rattle.std.specs.Prelude.{◌≡◌, ◌↔◌, ◌<◌, ◌≤◌, IsOk, OnOk, OnErr, IsTrue, ℕ, length};
ghost use Rattle.std.specs.Result.{result_err};
ghost use Rattle.xl_base.specs.Moments.{greatest_millis};
ghost use Rattle.xl_lists.specs.Lists.{is_on};
ghost use Rattle.xl_wire.specs.Heads.{parts, split_of};
ghost use Rattle.xl_wire.specs.Raws.{raw_frame};
ghost use Rattle.xl_base.specs.Refusals.{unless_refused};
ghost use Rattle.xl_ledger.specs.Chains.{Joins};
ghost use Rattle.xl_ledger.specs.Reading.{header_in};
ghost use Rattle.xl_ledger.specs.Registries.{add_refusal, with_header};
ghost use Rattle.xl_core.specs.Node.{Frame, at_moment, bytes_reply, happens, speech_reply, speech_refusal, frame_refusal, HearsOthers};
ghost use Rattle.xl_core.specs.Hearing.{bytes_with, speech_of, BeginsWith};
ghost use Rattle.xl_core.specs.declared.hearing.Speech.TheVariants as speech;
ghost use Rattle.xl_core.specs.Replies.{hear_reply};
ghost use Rattle.xl_core.specs.Issuing.Save.{Kept};

use super::{Node, report_by};
use crate::hashes::Hashes;
use crate::hearing::{Tags, opened};
use crate::last_built::LastBuilt;
use crate::taken::{Heard, UNHEARD};
use crate::{Refusal, Taken};
use xl_base::{Millis, NodeNo, secs_of};
use xl_ledger::{AddRefusal, Branch, Header, LedgerNo, Registry, read_header};
use xl_wire::{Body, Parted, Raw, Validation, read_body, split};

/// Adds a header to the known ledgers. It isn't hashed if it is that of the ledger that was built last.
fn add(registry: &mut Registry, h: &Header, built: &LastBuilt) -> Result<LedgerNo, AddRefusal>
    ensures exact { result ≡ unless_refused (add_refusal registry.old h.now) (length registry.old.headers) }
    ensures joins { IsOk result ↔ (Joins registry.old.headers h.now × (length registry.old.headers < registry.old.limit)) }
    ensures added { OnOk result (registry.new ≡ with_header registry.old h.now) }
    ensures refused { OnErr result (registry.new ≡ registry.old) }
{
    match built.id_of(h) {
        Some(id) => registry.add_named(h, &id),
        None => registry.add(h),
    }
}

impl<B: Branch + Drop> Node<B> {
    /// Hears bytes that come, and says what they give to report.
    ///
    /// Refused if they are no frame, not whole or followed by more; if the frame isn't for the node, comes from
    /// a stranger or carries another tag; if its body is none; and then by what it says. The sender's row refuses a
    /// validation as stale, as a repeat, as a conflict, or as old. A header isn't added if it is known, its parent
    /// isn't, its sequence isn't the parent's plus one, or there is no room. The round refuses a proposal for its
    /// ledger, as an old position, as of a member that left, or as stale, and a transaction if it is pending, or as
    /// many as may be are. A set is never refused. All is in this order. First the time is set, and rows expire;
    /// nothing else changes then.
    pub fn frame(&mut self, now: Millis, bytes: &[u8]) -> Result<Heard, Refusal>
        requires moment { now ≤ greatest_millis }
        ensures exact { hear_reply result self.new ≡ happens self.old (Frame now bytes.now) Kept }
        ensures refused { result_err result ≡ frame_refusal (at_moment now self.old) bytes.now }
        ensures unchanged { OnErr result (self.new ≡ at_moment now self.old) }
        // A node never takes a frame of its own number.
        ensures others { HearsOthers self.old bytes.now }
    {
        let mut heard = UNHEARD;
        let parted = split(bytes);
        self.hear(
            now,
            Tags::Tested,
            &parted,
            bytes,
            &mut Hashes::none(),
            &mut heard,
        );
        heard
    }

    /// Hears as `frame` does what was split off the bytes, with the tag tested or assumed. What comes of it is large, so
    /// it is written where it is to stand, here and in each call below.
    #[inline(never)]
    pub(crate) fn hear(
        &mut self,
        now: Millis,
        tags: Tags,
        parted: &Parted<'_>,
        bytes: &[u8],
        hashes: &mut Hashes,
        heard: &mut Result<Heard, Refusal>,
    )
        requires moment { now ≤ greatest_millis }
        requires parted { parts parted.now ≡ split_of bytes.now }
        ensures exact { hear_reply heard.new self.new
            ≡ happens self.old (Frame now (bytes_with tags self.old.keys bytes.now)) Kept }
        ensures refused { result_err heard.new
            ≡ frame_refusal (at_moment now self.old) (bytes_with tags self.old.keys bytes.now) }
        ensures unchanged { OnErr heard.new (self.new ≡ at_moment now self.old) }
        ensures others { HearsOthers self.old (bytes_with tags self.old.keys bytes.now) }
    {
        self.advance(now);
        // Its keys are its own.
        let _ = &self.keys;
        match parted {
            Parted::Whole(raw) => self.hear_frame(tags, raw, bytes, hashes, heard),
            Parted::Need(lack) => *heard = Err(Refusal::Short(*lack)),
            Parted::Refused(why) => *heard = Err(Refusal::Frame(*why)),
        }
    }

    /// Hears the body of a listed member's frame as if the frame had come.
    #[inline(never)]
    pub(crate) fn hear_body(
        &mut self,
        now: Millis,
        from: NodeNo,
        body: &Body<'_>,
        hashes: &mut Hashes,
        heard: &mut Result<Heard, Refusal>,
    )
        requires moment { now ≤ greatest_millis }
        requires listed { IsTrue (is_on self.old.list.members from) }
        ensures exact { hear_reply heard.new self.new ≡ speech_reply (at_moment now self.old) from (speech_of body.now) }
        ensures unchanged { OnErr heard.new (self.new ≡ at_moment now self.old) }
    {
        self.advance(now);
        self.take_body(from, body, hashes, heard);
    }

    /// Hears the frame with which the bytes begin.
    fn hear_frame(
        &mut self,
        tags: Tags,
        raw: &Raw<'_>,
        bytes: &[u8],
        hashes: &mut Hashes,
        heard: &mut Result<Heard, Refusal>,
    )
        requires { BeginsWith (raw_frame raw.now) bytes.now }
        ensures exact { hear_reply heard.new self.new
            ≡ bytes_reply self.old (bytes_with tags self.old.keys bytes.now) }
        ensures refused { result_err heard.new ≡ frame_refusal self.old (bytes_with tags self.old.keys bytes.now) }
        ensures unchanged { OnErr heard.new (self.new ≡ self.old) }
    {
        let Some(from) = opened(&self.keys, &self.list, tags, raw, bytes, heard) else {
            return;
        };
        // What is read is large, and taken where it stands.
        match &read_body(raw) {
            Ok(body) => self.take_body(from, body, hashes, heard),
            Err(why) => *heard = Err(Refusal::Frame(*why)),
        }
    }

    /// Takes what a member says in a body.
    fn take_body(
        &mut self,
        from: NodeNo,
        body: &Body<'_>,
        hashes: &mut Hashes,
        heard: &mut Result<Heard, Refusal>,
    )
        requires listed { IsTrue (is_on self.old.list.members from) }
        ensures exact { hear_reply heard.new self.new ≡ speech_reply self.old from (speech_of body.now) }
        ensures refused { result_err heard.new ≡ speech_refusal self.old from (speech_of body.now) }
        ensures unchanged { OnErr heard.new (self.new ≡ self.old) }
    {
        match body {
            Body::Validation(validation) => self.take(from, validation, heard),
            Body::Header(bytes) => self.learn(bytes, &hashes.built, heard),
            Body::Proposal(proposal) => self.place(from, proposal, heard),
            Body::TxSet(ids) => self.hold(from, ids, &mut hashes.sets, heard),
            Body::Tx(tx) => self.take_tx(*tx, heard),
        }
    }

    /// A member's row takes a validation, and what that gives is reported.
    pub(super) fn take(&mut self, from: NodeNo, v: &Validation, heard: &mut Result<Heard, Refusal>)
        requires listed { IsTrue (is_on self.old.list.members from) }
        ensures exact { hear_reply heard.new self.new ≡ speech_reply self.old from (speech.Validation v.now) }
        ensures refused { result_err heard.new ≡ speech_refusal self.old from (speech.Validation v.now) }
        ensures unchanged { OnErr heard.new (self.new ≡ self.old) }
    {
        let second = secs_of(self.time);
        match self.table.take(&self.registry, from, v, second) {
            Ok(()) => {
                let report = report_by(&self.table, self.list.quorum(), &self.last, v);
                self.last.note(&report);
                *heard = Ok(Heard {
                    taken: Taken::Validation,
                    report,
                });
            }
            Err(why) => *heard = Err(Refusal::from(why)),
        }
    }

    /// Adds a header to the known ledgers. Validations that waited for it are votes from then on, and nothing is
    /// reported.
    fn learn(&mut self, bytes: &[u8; 118], built: &LastBuilt, heard: &mut Result<Heard, Refusal>)
        ensures exact { (from : ℕ) →
            hear_reply heard.new self.new ≡ speech_reply self.old from (speech.Header (header_in bytes.now)) }
        ensures refused { (from : ℕ) →
            result_err heard.new ≡ speech_refusal self.old from (speech.Header (header_in bytes.now)) }
        ensures unchanged { OnErr heard.new (self.new ≡ self.old) }
    {
        *heard = self.add_header(&read_header(bytes), built);
    }

    fn add_header(&mut self, h: &Header, built: &LastBuilt) -> Result<Heard, Refusal>
        ensures exact { (from : ℕ) → hear_reply result self.new ≡ speech_reply self.old from (speech.Header h.now) }
        ensures refused { (from : ℕ) → result_err result ≡ speech_refusal self.old from (speech.Header h.now) }
        ensures unchanged { OnErr result (self.new ≡ self.old) }
    {
        let ledger = add(&mut self.registry, h, built)?;
        self.table.header_known(&self.registry, ledger);
        Ok(Heard {
            taken: Taken::Header(self.registry.id_at(ledger)),
            report: None,
        })
    }
}

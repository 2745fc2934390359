// What was hashed last.
ghost use Rattle.std.specs.Prelude.{◌≡◌, ◌<◌, ◌++◌, [], All, IfOk, IfSome, IsTrue, length, OnOk};
ghost use Rattle.std.specs.String.{string_bytes};
ghost use Rattle.hex.specs.Hex.{encode_lower};
ghost use Rattle.xl_base.specs.Sets.{set_id_of};
ghost use Rattle.xl_ledger.specs.Headers.{header_id};
ghost use Rattle.xl_ledger.specs.Reading.{header_in};
ghost use Rattle.xl_told.specs.Hashed.{
  IsNamedHeader,
  IsNamedSet,
  IsSpelled,
  IsSpelledProposal,
  IsSpelledValidation,
};
ghost use Rattle.xl_told.specs.Words.{proposal_text, validation_text};

use crate::words::{push_nameless, push_validation_words};
use std::alloc::Global;
use std::marker::Model;
use xl_base::{LedgerId, OutOfMemory, SetId, TxId, set_id};
use xl_ledger::{id_of, read_header};
use xl_sched::Reader;
use xl_wire::{Ids, Proposal, Validation};

/// For how many ids their digits are kept.
const SPELLED: usize = 64;

/// The bytes of a proposal's words, if none of its ids has a name, in this century. A validation's are about as many.
const WORDS: usize = 152;

/// The header and the set that were hashed last, with their ids: what is said to several is hashed once. So ids are
/// spelled once, and the proposal and the validation that were spelled last.
#[derive(Drop)]
pub struct Hashed {
    alloc: Global,
    header: Option<NamedHeader>,
    set: Option<NamedSet>,
    /// Each in a place that hangs on its bytes.
    spelled: Vec<SpelledId>,
    proposal: Option<SpelledProposal>,
    validation: Option<SpelledValidation>,
}

/// An id and its digits.
#[derive(Drop)]
struct SpelledId {
    id: LedgerId,
    digits: String,
}

/// A proposal and its words, if none of its ids has a name.
#[derive(Drop)]
struct SpelledProposal {
    proposal: Proposal,
    words: String,
}

/// A validation and its words, if none of its ids has a name.
#[derive(Drop)]
struct SpelledValidation {
    validation: Validation,
    words: String,
}

/// The bytes of a header, and its ledger's id.
#[derive(Clone, Copy)]
struct NamedHeader {
    bytes: [u8; 118],
    id: LedgerId,
}

/// A set and its id.
#[derive(Drop)]
struct NamedSet {
    ids: Vec<TxId>,
    id: SetId,
}

impl Model for Hashed {
    ghost use Rattle.std.specs.Prelude.{◌≡◌, All, IfSome, length};
    ghost use Rattle.xl_told.specs.Hashed.{
      IsNamedHeader,
      IsNamedSet,
      IsSpelled,
      IsSpelledProposal,
      IsSpelledValidation,
    };

    ghost Value = { Unit {0} };

    ghost view = { λ _. tt };

    ghost invariant = { λ h. IfSome h.header IsNamedHeader × IfSome h.set IsNamedSet
        × All IsSpelled h.spelled.items × length h.spelled.items ≡ 64 × IfSome h.proposal IsSpelledProposal
        × IfSome h.validation IsSpelledValidation };
}

fn are_same_bytes(one: &[u8], other: &[u8]) -> bool
    ensures { IsTrue result → one.now ≡ other.now }
{
    one == other
}

fn is_same_id(one: &TxId, other: &TxId) -> bool
    ensures { IsTrue result → one.now ≡ other.now }
{
    one == other
}

/// Whether these are the ids of a list.
fn are_listed(list: &[TxId], ids: &Ids<'_>) -> bool
    ensures { IsTrue result → list.now ≡ ids.now }
{
    if list.len() != ids.len() {
        return false;
    }
    for i in 0..list.len() {
        if !is_same_id(&list[i], &ids.get(i)) {
            return false;
        }
    }
    true
}

/// The id of a header's ledger, if it is the kept one.
fn known_header(kept: &Option<NamedHeader>, bytes: &[u8; 118]) -> Option<LedgerId>
    requires { IfSome kept.now IsNamedHeader }
    ensures { IfSome result (λ id. id ≡ header_id (header_in bytes.now)) }
{
    match kept {
        Some(named) if are_same_bytes(&named.bytes, bytes) => Some(named.id),
        _ => None,
    }
}

/// The id of a set, if it is the kept one.
fn known_set(kept: &Option<NamedSet>, ids: &Ids<'_>) -> Option<SetId>
    requires { IfSome kept.now IsNamedSet }
    ensures { IfSome result (λ id. id ≡ set_id_of ids.now) }
{
    match kept {
        Some(named) if are_listed(named.ids.as_slice(), ids) => Some(named.id),
        _ => None,
    }
}

/// The ids as a list.
fn list_of(alloc: Global, ids: &Ids<'_>) -> Result<Vec<TxId>, OutOfMemory>
    ensures { IfOk result (λ list. list.items ≡ ids.now) }
{
    let mut list = Vec::new(alloc);
    for i in 0..ids.len() {
        list.push(ids.get(i))?;
    }
    Ok(list)
}

/// An id is spelled.
fn spell(alloc: Global, id: &LedgerId) -> Result<SpelledId, OutOfMemory>
    ensures spelled { IfOk result IsSpelled }
    ensures same { IfOk result (λ spelled. spelled.id ≡ id.now) }
{
    let digits = hex::encode(alloc, id.0.as_slice())?;
    Ok(SpelledId { id: *id, digits })
}

/// An id is spelled for each place.
fn spell_each(alloc: Global) -> Result<Vec<SpelledId>, OutOfMemory>
    ensures each { IfOk result (λ spelled. All IsSpelled spelled.items) }
    ensures count { IfOk result (λ spelled. length spelled.items ≡ 64) }
{
    let mut spelled = Vec::new(alloc);
    for _ in 0..SPELLED {
        spelled.push(spell(alloc, &LedgerId([0; 32]))?)?;
    }
    Ok(spelled)
}

fn is_spelled(spelled: &SpelledId, id: &LedgerId) -> bool
    ensures { IsTrue result → spelled.now.id ≡ id.now }
{
    spelled.id == *id
}

/// The digits of an id, if they stand in this place.
fn known_digits<'a>(spelled: &'a [SpelledId], place: usize, id: &LedgerId) -> Option<&'a str>
    requires each { All IsSpelled spelled.now }
    requires within { place < length spelled.now }
    ensures { IfSome result (λ digits. digits.now ≡ encode_lower id.now.0) }
{
    let kept = &spelled[place];
    if is_spelled(kept, id) {
        Some(kept.digits.as_str())
    } else {
        None
    }
}

fn is_same_proposal(one: &Proposal, other: &Proposal) -> bool
    ensures { IsTrue result → one.now ≡ other.now }
{
    one == other
}

/// The words of a proposal, if it is the kept one.
fn known_words<'a>(kept: &'a Option<SpelledProposal>, proposal: &Proposal) -> Option<&'a str>
    requires { IfSome kept.now IsSpelledProposal }
    ensures { IfSome result (λ words. words.now ≡ proposal_text [] proposal.now) }
{
    match kept {
        Some(spelled) if is_same_proposal(&spelled.proposal, proposal) => {
            Some(spelled.words.as_str())
        }
        _ => None,
    }
}

fn is_same_validation(one: &Validation, other: &Validation) -> bool
    ensures { IsTrue result → one.now ≡ other.now }
{
    one == other
}

/// The words of a validation, if it is the kept one.
fn known_vote<'a>(kept: &'a Option<SpelledValidation>, validation: &Validation) -> Option<&'a str>
    requires { IfSome kept.now IsSpelledValidation }
    ensures { IfSome result (λ words. words.now ≡ validation_text [] validation.now) }
{
    match kept {
        Some(spelled) if is_same_validation(&spelled.validation, validation) => {
            Some(spelled.words.as_str())
        }
        _ => None,
    }
}

impl Hashed {
    /// Nothing was hashed yet. Refused only when memory runs out.
    pub fn none(alloc: Global) -> Result<Hashed, OutOfMemory> {
        Ok(Hashed {
            alloc,
            header: None,
            set: None,
            spelled: spell_each(alloc)?,
            proposal: None,
            validation: None,
        })
    }

    /// The digits of an id, added to a text.
    pub(crate) fn push_digits(
        &mut self,
        text: &mut String,
        id: &LedgerId,
    ) -> Result<(), OutOfMemory>
        ensures { OnOk result (string_bytes text.new ≡ string_bytes text.old ++ encode_lower id.now.0) }
    {
        let place = ((id.0[0] ^ id.0[31]) % 64) as usize;
        if let Some(digits) = known_digits(self.spelled.as_slice(), place, id) {
            return Ok(text.push_str(digits)?);
        }
        let spelled = spell(self.alloc, id)?;
        text.push_str(spelled.digits.as_str())?;
        self.spelled[place] = spelled;
        Ok(())
    }

    /// The digits of bytes, added to a text.
    pub(crate) fn push_bytes(&self, text: &mut String, bytes: &[u8]) -> Result<(), OutOfMemory>
        ensures { OnOk result (string_bytes text.new ≡ string_bytes text.old ++ encode_lower bytes.now) }
    {
        let digits = hex::encode(self.alloc, bytes)?;
        text.push_str(digits.as_str())?;
        Ok(())
    }

    /// The words of a proposal none of whose ids has a name, added to a text.
    pub(crate) fn push_proposal(
        &mut self,
        text: &mut String,
        proposal: &Proposal,
    ) -> Result<(), OutOfMemory>
        ensures { OnOk result (string_bytes text.new ≡ string_bytes text.old ++ proposal_text [] proposal.now) }
    {
        if let Some(words) = known_words(&self.proposal, proposal) {
            return Ok(text.push_str(words)?);
        }
        let spelled = self.spell_proposal(proposal)?;
        text.push_str(spelled.words.as_str())?;
        self.proposal = Some(spelled);
        Ok(())
    }

    fn spell_proposal(&mut self, proposal: &Proposal) -> Result<SpelledProposal, OutOfMemory>
        ensures spelled { IfOk result IsSpelledProposal }
        ensures same { IfOk result (λ spelled. spelled.proposal ≡ proposal.now) }
    {
        let mut words = String::with_capacity(self.alloc, WORDS)?;
        push_nameless(&mut words, self, proposal)?;
        Ok(SpelledProposal {
            proposal: *proposal,
            words,
        })
    }

    /// The words of a validation none of whose ids has a name, added to a text.
    pub(crate) fn push_validation(
        &mut self,
        text: &mut String,
        reader: &Reader,
        validation: &Validation,
    ) -> Result<(), OutOfMemory>
        requires { validation_text reader.now.names validation.now ≡ validation_text [] validation.now }
        ensures { OnOk result (string_bytes text.new ≡ string_bytes text.old ++ validation_text [] validation.now) }
    {
        if let Some(words) = known_vote(&self.validation, validation) {
            return Ok(text.push_str(words)?);
        }
        let spelled = self.spell_validation(reader, validation)?;
        text.push_str(spelled.words.as_str())?;
        self.validation = Some(spelled);
        Ok(())
    }

    fn spell_validation(
        &mut self,
        reader: &Reader,
        validation: &Validation,
    ) -> Result<SpelledValidation, OutOfMemory>
        requires { validation_text reader.now.names validation.now ≡ validation_text [] validation.now }
        ensures spelled { IfOk result IsSpelledValidation }
        ensures same { IfOk result (λ spelled. spelled.validation ≡ validation.now) }
    {
        let mut words = String::with_capacity(self.alloc, WORDS)?;
        push_validation_words(&mut words, reader, self, validation)?;
        Ok(SpelledValidation {
            validation: *validation,
            words,
        })
    }

    /// The id of the ledger whose header is spelled so.
    pub fn header_id(&mut self, bytes: &[u8; 118]) -> LedgerId
        ensures { result ≡ header_id (header_in bytes.now) }
    {
        match known_header(&self.header, bytes) {
            Some(id) => id,
            None => self.hash_header(bytes),
        }
    }

    fn hash_header(&mut self, bytes: &[u8; 118]) -> LedgerId
        ensures { result ≡ header_id (header_in bytes.now) }
    {
        let id = id_of(&read_header(bytes));
        self.header = Some(NamedHeader { bytes: *bytes, id });
        id
    }

    /// The id of a set.
    pub(crate) fn set_id(&mut self, ids: &Ids<'_>) -> Result<SetId, OutOfMemory>
        ensures { IfOk result (λ id. id ≡ set_id_of ids.now) }
    {
        match known_set(&self.set, ids) {
            Some(id) => Ok(id),
            None => {
                let ids = list_of(self.alloc, ids)?;
                Ok(self.hash_set(ids))
            }
        }
    }

    fn hash_set(&mut self, ids: Vec<TxId>) -> SetId
        ensures { result ≡ set_id_of ids.items }
    {
        let id = set_id(ids.as_slice());
        self.set = Some(NamedSet { ids, id });
        id
    }
}

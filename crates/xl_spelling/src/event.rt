// What happens, added to bytes.
ghost use Rattle.std.specs.Prelude.{◌≡◌, ◌++◌, ◌∷◌, decimal, OnOk};
ghost use Rattle.std.specs.List.{join_with_byte};
ghost use Rattle.xl_spelling.specs.Spellings.{held_word, ask_words, lied_words, what_words};
ghost use Rattle.xl_spelling.specs.Stored.{IsStoredAsk, IsStoredLied, IsStoredWhat};

use crate::entries::{push_members, push_set};
use crate::tokens::{held_word, kind_word, push, push_digits, push_id, push_number};
use xl_base::{NodeNo, OutOfMemory};
use xl_sched::{Ask, Lied, What};
use xl_wire::{Proposal, Validation};

/// What happens.
pub fn push_what(room: &mut Vec<u8>, what: &What) -> Result<(), OutOfMemory>
    ensures text { OnOk result (room.new.items ≡ room.old.items ++ join_with_byte 32 (what_words what.now)) }
    ensures stored { OnOk result (IsStoredWhat what.now) }
{
    match what {
        What::Ask(ask) => push_ask(room, ask),
        What::Timers => push_word(room, b"timers"),
        What::Submit { node, tx } => {
            push_of(room, b"submit", *node)?;
            push_id(room, b' ', &tx.0)
        }
        What::Deliver { place } => {
            push_word(room, b"deliver")?;
            push_number(room, b' ', *place)
        }
        What::All => push_word(room, b"all"),
        What::Drop => push_word(room, b"drop"),
        What::Greet { node, peer } => {
            push_of(room, b"greet", *node)?;
            push_number(room, b' ', u64::from(peer.get()))
        }
        What::Restart { node } => push_of(room, b"restart", *node),
        What::Cut { new, ask } => push_save(room, b"cut", *new, ask),
        What::Fail { new, ask } => push_save(room, b"fail", *new, ask),
        What::List { node, list } => {
            push_of(room, b"list", *node)?;
            push_number(room, b' ', u64::from(list.quorum()))?;
            push_members(room, list.members())
        }
        What::Lie { from, to, what } => {
            push_of(room, b"lie", *from)?;
            push_number(room, b' ', u64::from(to.get()))?;
            room.push(b' ')?;
            push_lied(room, what)
        }
        What::Raw { to, bytes } => {
            push_of(room, b"raw", *to)?;
            push_digits(room, b' ', bytes.as_slice())
        }
        What::Prefer { node } => push_of(room, b"prefer", *node),
        What::Heard { node } => push_of(room, b"heard", *node),
    }
}

/// A word.
pub fn push_word(room: &mut Vec<u8>, word: &[u8]) -> Result<(), OutOfMemory>
    ensures { OnOk result (room.new.items ≡ room.old.items ++ word.now) }
{
    room.extend_from_slice(word)?;
    Ok(())
}

/// A word, and the number of a member.
pub fn push_of(room: &mut Vec<u8>, word: &[u8], member: NodeNo) -> Result<(), OutOfMemory>
    ensures { OnOk result (room.new.items ≡ room.old.items ++ word.now ++ 32 ∷ decimal member) }
{
    push_word(room, word)?;
    push_number(room, b' ', u64::from(member.get()))
}

/// What a node is asked.
fn push_ask(room: &mut Vec<u8>, ask: &Ask) -> Result<(), OutOfMemory>
    ensures text { OnOk result (room.new.items ≡ room.old.items ++ join_with_byte 32 (ask_words ask.now)) }
    ensures stored { OnOk result (IsStoredAsk ask.now) }
{
    match ask {
        Ask::Issue {
            node,
            seq,
            id,
            full,
        } => {
            push_of(room, b"issue", *node)?;
            push_number(room, b' ', u64::from(*seq))?;
            push_id(room, b' ', &id.0)?;
            push(room, b' ', kind_word(*full))
        }
        Ask::Timer { node } => push_of(room, b"timer", *node),
    }
}

/// A disturbed save, and what is asked.
fn push_save(room: &mut Vec<u8>, word: &[u8], new: bool, ask: &Ask) -> Result<(), OutOfMemory>
    ensures text { OnOk result
        (room.new.items ≡ room.old.items ++ join_with_byte 32 (word.now ∷ held_word new ∷ ask_words ask.now)) }
    ensures stored { OnOk result (IsStoredAsk ask.now) }
{
    push_word(room, word)?;
    push(room, b' ', held_word(new))?;
    room.push(b' ')?;
    push_ask(room, ask)
}

/// What a liar says.
fn push_lied(room: &mut Vec<u8>, lied: &Lied) -> Result<(), OutOfMemory>
    ensures text { OnOk result (room.new.items ≡ room.old.items ++ join_with_byte 32 (lied_words lied.now)) }
    ensures stored { OnOk result (IsStoredLied lied.now) }
{
    match lied {
        Lied::Proposal(proposal) => push_proposal(room, proposal),
        Lied::Validation(validation) => push_validation(room, validation),
        Lied::Header { name, .. } => {
            push_word(room, b"header")?;
            push(room, b' ', name.as_slice())
        }
        Lied::TxSet(ids) => {
            push_word(room, b"set")?;
            push_set(room, ids.as_slice())
        }
        Lied::Tx(id) => {
            push_word(room, b"tx")?;
            push_id(room, b' ', &id.0)
        }
    }
}

fn push_proposal(room: &mut Vec<u8>, proposal: &Proposal) -> Result<(), OutOfMemory>
    ensures text { OnOk result
        (room.new.items ≡ room.old.items ++ join_with_byte 32 (lied_words (Lied.Proposal proposal.now))) }
    ensures stored { OnOk result (IsStoredLied (Lied.Proposal proposal.now)) }
{
    push_word(room, b"proposal")?;
    push_id(room, b' ', &proposal.prev.0)?;
    push_id(room, b' ', &proposal.set.0)?;
    push_number(room, b' ', u64::from(proposal.pseq))?;
    push_number(room, b' ', u64::from(proposal.close))?;
    push_number(room, b' ', u64::from(proposal.time))
}

fn push_validation(room: &mut Vec<u8>, validation: &Validation) -> Result<(), OutOfMemory>
    ensures text { OnOk result
        (room.new.items ≡ room.old.items ++ join_with_byte 32 (lied_words (Lied.Validation validation.now))) }
    ensures stored { OnOk result (IsStoredLied (Lied.Validation validation.now)) }
{
    push_word(room, b"validation")?;
    push_number(room, b' ', u64::from(validation.seq))?;
    push_id(room, b' ', &validation.id.0)?;
    push_number(room, b' ', u64::from(validation.signed))?;
    push(room, b' ', kind_word(validation.full))?;
    match &validation.validated {
        Some(id) => push_id(room, b' ', &id.0),
        None => Ok(()),
    }
}

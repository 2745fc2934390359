// The ledgers that a node knows.
ghost use Rattle.std.specs.Prelude.{◌≡◌, ◌<◌, ◌++◌, length, nat_lt, [], if◌then◌else◌, OnOk};
ghost use Rattle.std.specs.String.{string_bytes};
ghost use Rattle.xl_held.specs.Changes.{ledgers_changed};
ghost use Rattle.xl_held.specs.Lines.{known_line, ledger_line, ledger_lines};

use crate::words::{push_held, push_last_number, push_number_line};
use xl_base::{NodeNo, OutOfMemory};
use xl_core::Node;
use xl_ledger::Registry;
use xl_sched::Reader;
use xl_told::{Hashed, push_id, push_ledger as push_ledger_of};
use xl_trie::Trie;

/// The ledger of a place.
fn push_ledger(
    text: &mut String,
    reader: &Reader,
    hashed: &mut Hashed,
    number: NodeNo,
    registry: &Registry,
    place: u32,
) -> Result<(), OutOfMemory>
    requires { place < length registry.now.headers }
    ensures { OnOk result (string_bytes text.new
        ≡ string_bytes text.old ++ ledger_line reader.now.names number registry.now.headers place) }
{
    let ledger = registry.ledger_at(place);
    let header = registry.walk().header(ledger);
    push_held(text, number, " ledger ")?;
    push_ledger_of(text, reader, hashed, header.seq, &registry.id_at(ledger))?;
    text.push(' ')?;
    push_id(text, reader, hashed, &header.parent)?;
    push_last_number(text, u64::from(header.close))
}

/// The ledgers from a place on.
fn push_ledgers(
    text: &mut String,
    reader: &Reader,
    hashed: &mut Hashed,
    number: NodeNo,
    registry: &Registry,
    first: u32,
) -> Result<(), OutOfMemory>
    ensures { OnOk result (string_bytes text.new
        ≡ string_bytes text.old ++ ledger_lines reader.now.names number registry.now.headers first) }
{
    for place in first..registry.len() {
        push_ledger(text, reader, hashed, number, registry, place)?;
    }
    Ok(())
}

/// How many ledgers are left, if they are fewer than before.
fn push_fewer(
    text: &mut String,
    number: NodeNo,
    known: u32,
    registry: &Registry,
) -> Result<(), OutOfMemory>
    ensures { OnOk result (string_bytes text.new ≡ string_bytes text.old
        ++ (if nat_lt (length registry.now.headers) known then known_line number (length registry.now.headers) else [])) }
{
    let count = registry.len();
    if count >= known {
        return Ok(());
    }
    push_number_line(text, number, " known ", u64::from(count))
}

/// What is new of the ledgers that it knows.
pub fn push_new_ledgers(
    text: &mut String,
    reader: &Reader,
    hashed: &mut Hashed,
    number: NodeNo,
    known: u32,
    node: &Node<Trie>,
) -> Result<(), OutOfMemory>
    ensures { OnOk result (string_bytes text.new
        ≡ string_bytes text.old ++ ledgers_changed reader.now.names number known node.now) }
{
    let registry = node.registry();
    push_fewer(text, number, known, registry)?;
    push_ledgers(text, reader, hashed, number, registry, known)
}

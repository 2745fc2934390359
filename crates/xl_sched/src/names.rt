ghost use Rattle.std.specs.Prelude.{◌≡◌, ◌+◌, ◌≤◌, ◌++◌, ◌∷◌, ◌||◌, [], length, find, Some, None, Ok, Err, IfSome, OnOk, OnErr, IfOk, MatchResult, option_copied};
ghost use Rattle.std.specs.List.{list_all};
ghost use Rattle.std.specs.Char.{is_ascii_digit};
ghost use Rattle.xl_sched.specs.Names.{id_written, is_name, is_letter};

use crate::fault::{Cause, LineFault};
use crate::ledger::Ledger;
use crate::named::Named;
use crate::places::Places;
use hex::FromHex;
use std::alloc::Global;
use std::marker::Model;
use xl_base::{Bytes, LedgerId, OutOfMemory, SetId, TxId};
use xl_ledger::{Header, id_of};

/// The names in the order of their declaration, `root` first. Contracts see them as a list.
#[derive(Drop)]
pub struct Names {
    declared: Vec<Named>,
    places: Places,
}

impl Model for Names {
    ghost use Rattle.std.specs.Prelude.{List, length};
    ghost use Rattle.xl_sched.specs.declared.named.Named.{Named};
    ghost use Rattle.xl_sched.specs.Places.{AreFirst};
    ghost use Rattle.xl_sched.specs.Ledgers.{AreUpTo};

    ghost Value = { List Named };

    ghost view = { λ names. names.declared.items };

    ghost invariant = { λ names.
        AreFirst names.places names.declared.items × AreUpTo (length names.declared.items) names.declared.items };
}

impl Names {
    ghost use Rattle.std.specs.Str.{bytes_eq};
    ghost use Rattle.xl_ledger.specs.Headers.{header_id};
    ghost use Rattle.xl_sched.specs.Names.{root, name_of, id_named, id_of, ledger_id_of, set_id_of, tx_id_of, new_name_of};
    ghost use Rattle.xl_sched.specs.Ledgers.{ledger_named, ledger_of, parent_of};

    /// `root` alone.
    pub fn with_root(alloc: Global) -> Result<Names, OutOfMemory>
        ensures { IfOk result (λ names. names ≡ root ∷ []) }
    {
        let mut names = Names {
            declared: Vec::new(alloc),
            places: Places::new(alloc),
        };
        names.declare(b"root", [0; 32], alloc)?;
        Ok(names)
    }

    /// How many they are, `root` counted.
    pub fn len(&self) -> usize
        ensures { result ≡ length self.now }
    {
        self.declared.len()
    }

    /// The first name that stands for an id.
    pub fn name_of(&self, id: &[u8; 32]) -> Option<&[u8]>
        ensures { option_copied result ≡ name_of self.now id.now }
    {
        let place = self.places.of_id(id)?;
        Some(self.declared[place].name.as_slice())
    }

    /// An id, by its digits or by its name.
    pub fn id<'a>(&self, token: &'a [u8]) -> Result<[u8; 32], LineFault<'a>>
        ensures { result ≡ id_of self.now token.now }
    {
        match id_written(token) {
            Some(id) => Ok(id),
            None => self
                .id_named(token)
                .ok_or(LineFault::with_text(Cause::Id, token)),
        }
    }

    /// The id of a ledger, by its digits or by any name.
    pub fn ledger_id<'a>(&self, token: &'a [u8]) -> Result<LedgerId, LineFault<'a>>
        ensures { result ≡ ledger_id_of self.now token.now }
    {
        Ok(LedgerId(self.id(token)?))
    }

    /// The id of a set of transactions.
    pub fn set_id<'a>(&self, token: &'a [u8]) -> Result<SetId, LineFault<'a>>
        ensures { result ≡ set_id_of self.now token.now }
    {
        Ok(SetId(self.id(token)?))
    }

    /// The id of a transaction.
    pub fn tx_id<'a>(&self, token: &'a [u8]) -> Result<TxId, LineFault<'a>>
        ensures { result ≡ tx_id_of self.now token.now }
    {
        Ok(TxId(self.id(token)?))
    }

    /// A ledger that another may follow: one that is named, or the root.
    pub fn parent<'a>(&self, token: &'a [u8]) -> Result<Ledger, LineFault<'a>>
        ensures value { result ≡ parent_of self.now token.now }
        ensures low { IfOk result (λ ledger. ledger.header.seq ≤ length self.now) }
    {
        if token == b"root".as_slice() {
            Ok(Ledger::root())
        } else {
            self.ledger(token)
        }
    }

    /// A ledger, by its name. A name that was declared by an id is none.
    pub fn ledger<'a>(&self, token: &'a [u8]) -> Result<Ledger, LineFault<'a>>
        ensures value { result ≡ ledger_of self.now token.now }
        ensures low { IfOk result (λ ledger. ledger.header.seq ≤ length self.now) }
    {
        self.ledger_named(token)
            .ok_or(LineFault::with_text(Cause::Id, token))
    }

    fn ledger_named(&self, name: &[u8]) -> Option<Ledger>
        ensures value { result ≡ ledger_named self.now name.now }
        ensures low { IfSome result (λ ledger. ledger.header.seq ≤ length self.now) }
    {
        let named = self.named(name)?;
        Some(Ledger {
            id: LedgerId(named.id),
            header: named.header?,
        })
    }

    fn id_named(&self, name: &[u8]) -> Option<[u8; 32]>
        ensures { result ≡ id_named self.now name.now }
    {
        Some(self.named(name)?.id)
    }

    fn named(&self, name: &[u8]) -> Option<&Named>
        ensures value { option_copied result ≡ find (λ n. bytes_eq name.now n.name) self.now }
        ensures low { IfSome result (λ named. IfSome named.now.header (λ header. header.seq ≤ length self.now)) }
    {
        let place = self.places.of_name(name)?;
        Some(&self.declared[place])
    }

    /// A name that may still be declared.
    pub fn undeclared<'a>(&self, token: &'a [u8]) -> Result<&'a [u8], LineFault<'a>>
        ensures value { MatchResult result
            (λ name. new_name_of self.now token.now ≡ Ok name.now)
            (λ fault. new_name_of self.now token.now ≡ Err fault) }
        ensures new { IfOk result (λ name. id_named self.now name.now ≡ None) }
    {
        if !is_name(token) {
            return Err(LineFault::with_text(Cause::Id, token));
        }
        if self.id_named(token).is_some() {
            return Err(LineFault::with_text(Cause::Twice, token));
        }
        Ok(token)
    }

    /// Declares a name for an id.
    pub fn declare(&mut self, name: &[u8], id: [u8; 32], alloc: Global) -> Result<(), OutOfMemory>
        requires { id_named self.old name.now ≡ None }
        ensures declared { OnOk result
            (self.new ≡ self.old ++ record { name = name.now; id = id; header = None } ∷ []) }
        ensures kept { OnErr result (self.new ≡ self.old) }
    {
        self.put(name, id, None, alloc)
    }

    /// Declares a name for a ledger.
    pub fn declare_ledger(
        &mut self,
        name: &[u8],
        header: &Header,
        alloc: Global,
    ) -> Result<(), OutOfMemory>
        requires new { id_named self.old name.now ≡ None }
        requires low { header.now.seq ≤ length self.old + 1 }
        ensures declared { OnOk result (self.new ≡
            self.old ++ record { name = name.now; id = (header_id header.now).0; header = Some header.now } ∷ []) }
        ensures kept { OnErr result (self.new ≡ self.old) }
    {
        self.put(name, id_of(header).0, Some(*header), alloc)
    }

    fn put(
        &mut self,
        name: &[u8],
        id: [u8; 32],
        header: Option<Header>,
        alloc: Global,
    ) -> Result<(), OutOfMemory>
        requires new { id_named self.old name.now ≡ None }
        requires low { IfSome header (λ h. h.seq ≤ length self.old + 1) }
        ensures declared { OnOk result
            (self.new ≡ self.old ++ record { name = name.now; id = id; header = header } ∷ []) }
        ensures kept { OnErr result (self.new ≡ self.old) }
    {
        let place = self.declared.len();
        let copy = Vec::from_slice(alloc, name)?;
        self.declared.push(Named {
            name: Bytes::from_vec(copy),
            id,
            header,
        })?;
        match self.places.insert(name, &id, place, alloc) {
            Ok(()) => Ok(()),
            Err(_) => {
                self.declared.truncate(place);
                Err(OutOfMemory)
            }
        }
    }
}

fn id_written(token: &[u8]) -> Option<[u8; 32]>
    ensures { result ≡ id_written token.now }
{
    <[u8; 32]>::from_hex(token).ok()
}

fn is_name(token: &[u8]) -> bool
    ensures { result ≡ is_name token.now }
{
    match token {
        [] => false,
        [first, rest @ ..] => is_letter(*first) && are_letters_or_digits(rest) && rest.len() <= 15,
    }
}

fn are_letters_or_digits(bytes: &[u8]) -> bool
    ensures { result ≡ list_all (λ b. is_letter b || is_ascii_digit b) bytes.now }
{
    bytes.iter().all(|&b| is_letter(b) || b.is_ascii_digit())
}

fn is_letter(b: u8) -> bool
    ensures { result ≡ is_letter b }
{
    b.is_ascii_lowercase()
}

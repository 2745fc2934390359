// What frames said that were written last.
ghost use Rattle.std.specs.Prelude.{◌≡◌, ◌++◌, false, true, IfSome, IsTrue, None, OnOk};
ghost use Rattle.std.specs.String.{string_bytes};
ghost use Rattle.xl_tell.specs.Echoes.{AreEchoes, IsEcho, IsPartsEcho, parts_text};
ghost use Rattle.xl_told.specs.Bodies.{body_text, said_text};
ghost use Rattle.xl_wire.specs.Bodies.{body_of};
ghost use Rattle.xl_wire.specs.Frames.{decoded_of};
ghost use Rattle.xl_world.specs.Sending.{body_said};

use std::alloc::Global;
use xl_base::OutOfMemory;
use xl_sched::Reader;
use xl_told::{Hashed, push_body, push_said};
use xl_wire::{Parted, Raw, read_body, split};
use xl_world::Said;

/// What a frame said, and its words: what is said to several receivers is spelled once.
#[derive(Drop)]
pub struct Echo {
    said: Option<Said>,
    words: String,
}

impl Echo {
    /// Nothing was said.
    fn none(alloc: Global) -> Echo {
        Echo {
            said: None,
            words: String::new(alloc),
        }
    }

    /// It is forgotten what was said.
    fn forget(&mut self)
        ensures { self.new.said ≡ None }
    {
        self.said = None;
    }

    /// The words of this in the reader's names, if it was said last.
    fn known(&self, reader: &Reader, said: &Said) -> Option<&str>
        requires { IsEcho reader.now.names self.now }
        ensures { IfSome result (λ words. words.now ≡ body_text reader.now.names (body_said said.now)) }
    {
        match &self.said {
            Some(kept) if kept.is(said) => Some(self.words.as_str()),
            _ => None,
        }
    }

    /// This is said, and is spelled.
    fn spell(
        &mut self,
        reader: &Reader,
        hashed: &mut Hashed,
        said: &Said,
    ) -> Result<(), OutOfMemory>
        ensures echo { OnOk result (IsEcho reader.now.names self.new) }
        ensures words { OnOk result (string_bytes self.new.words ≡ body_text reader.now.names (body_said said.now)) }
    {
        self.words.clear();
        push_body(&mut self.words, reader, hashed, &said.body())?;
        self.said = Some(*said);
        Ok(())
    }

    /// Adds the words of this to a text.
    fn push(
        &mut self,
        text: &mut String,
        reader: &Reader,
        hashed: &mut Hashed,
        said: &Said,
    ) -> Result<(), OutOfMemory>
        requires { IsEcho reader.now.names self.old }
        ensures echo { OnOk result (IsEcho reader.now.names self.new) }
        ensures told { OnOk result (string_bytes text.new
            ≡ string_bytes text.old ++ body_text reader.now.names (body_said said.now)) }
    {
        if let Some(words) = self.known(reader, said) {
            return Ok(text.push_str(words)?);
        }
        self.spell(reader, hashed, said)?;
        text.push_str(self.words.as_str())?;
        Ok(())
    }
}

/// What the parts of a frame say.
fn push_parts(
    text: &mut String,
    reader: &Reader,
    hashed: &mut Hashed,
    raw: &Raw<'_>,
) -> Result<(), OutOfMemory>
    ensures { OnOk result (string_bytes text.new
        ≡ string_bytes text.old ++ parts_text reader.now.names (body_of raw.now.kind raw.now.body.now)) }
{
    match read_body(raw) {
        Ok(body) => push_body(text, reader, hashed, &body),
        Err(_) => Ok(text.push_str("none")?),
    }
}

fn is_same_body(one: &[u8], other: &[u8]) -> bool
    ensures { IsTrue result → one.now ≡ other.now }
{
    one == other
}

/// The kind and the body of a frame of which bytes are kept, and its words: what is said to several receivers is spelled
/// once.
#[derive(Drop)]
pub struct PartsEcho {
    is_said: bool,
    kind: u8,
    body: Vec<u8>,
    words: String,
}

impl PartsEcho {
    /// Nothing was said.
    fn none(alloc: Global) -> PartsEcho {
        PartsEcho {
            is_said: false,
            kind: 0,
            body: Vec::new(alloc),
            words: String::new(alloc),
        }
    }

    /// It is forgotten what was said.
    fn forget(&mut self)
        ensures { self.new.is_said ≡ false }
    {
        self.is_said = false;
    }

    /// Whether a frame of these parts was said last.
    fn has(&self, raw: &Raw<'_>) -> bool
        ensures said { IsTrue result → self.now.is_said ≡ true }
        ensures kind { IsTrue result → self.now.kind ≡ raw.now.kind }
        ensures body { IsTrue result → self.now.body.items ≡ raw.now.body.now }
    {
        self.is_said && self.kind == raw.kind && is_same_body(self.body.as_slice(), raw.body)
    }

    /// The words of a frame of these parts in the reader's names, if it was said last.
    fn known(&self, reader: &Reader, raw: &Raw<'_>) -> Option<&str>
        requires { IsPartsEcho reader.now.names self.now }
        ensures { IfSome result (λ words. words.now ≡ parts_text reader.now.names (body_of raw.now.kind raw.now.body.now)) }
    {
        if self.has(raw) {
            return Some(self.words.as_str());
        }
        None
    }

    /// A frame of these parts is said, and is spelled.
    fn spell(
        &mut self,
        reader: &Reader,
        hashed: &mut Hashed,
        raw: &Raw<'_>,
    ) -> Result<(), OutOfMemory>
        ensures echo { OnOk result (IsPartsEcho reader.now.names self.new) }
        ensures words { OnOk result (string_bytes self.new.words
            ≡ parts_text reader.now.names (body_of raw.now.kind raw.now.body.now)) }
    {
        self.words.clear();
        push_parts(&mut self.words, reader, hashed, raw)?;
        self.kind = raw.kind;
        self.body.clear();
        self.body.extend_from_slice(raw.body)?;
        self.is_said = true;
        Ok(())
    }

    /// Adds what a frame of these parts says to a text.
    fn push(
        &mut self,
        text: &mut String,
        reader: &Reader,
        hashed: &mut Hashed,
        raw: &Raw<'_>,
    ) -> Result<(), OutOfMemory>
        requires { IsPartsEcho reader.now.names self.old }
        ensures echo { OnOk result (IsPartsEcho reader.now.names self.new) }
        ensures told { OnOk result (string_bytes text.new
            ≡ string_bytes text.old ++ parts_text reader.now.names (body_of raw.now.kind raw.now.body.now)) }
    {
        if let Some(words) = self.known(reader, raw) {
            return Ok(text.push_str(words)?);
        }
        self.spell(reader, hashed, raw)?;
        text.push_str(self.words.as_str())?;
        Ok(())
    }
}

/// What was said last in a frame of each kind; of a set the bytes are kept.
#[derive(Drop)]
pub struct Echoes {
    proposal: Echo,
    validation: Echo,
    header: Echo,
    tx: Echo,
    parts: PartsEcho,
}

impl Echoes {
    /// Nothing was said.
    pub fn none(alloc: Global) -> Echoes {
        Echoes {
            proposal: Echo::none(alloc),
            validation: Echo::none(alloc),
            header: Echo::none(alloc),
            tx: Echo::none(alloc),
            parts: PartsEcho::none(alloc),
        }
    }

    /// It is forgotten what was said, so no words are in other names than the reader's.
    pub fn forget(&mut self, reader: &Reader)
        ensures { AreEchoes reader.now.names self.new }
    {
        self.proposal.forget();
        self.validation.forget();
        self.header.forget();
        self.tx.forget();
        self.parts.forget();
    }

    /// Adds what a frame of these bytes says to a text.
    pub fn push_bytes(
        &mut self,
        text: &mut String,
        reader: &Reader,
        hashed: &mut Hashed,
        bytes: &[u8],
    ) -> Result<(), OutOfMemory>
        requires { AreEchoes reader.now.names self.old }
        ensures echoes { OnOk result (AreEchoes reader.now.names self.new) }
        ensures told { OnOk result (string_bytes text.new
            ≡ string_bytes text.old ++ said_text reader.now.names (decoded_of bytes.now)) }
    {
        match split(bytes) {
            Parted::Whole(raw) => Ok(self.parts.push(text, reader, hashed, &raw)?),
            _ => push_said(text, reader, hashed, bytes),
        }
    }

    /// Adds the words of this to a text.
    pub fn push(
        &mut self,
        text: &mut String,
        reader: &Reader,
        hashed: &mut Hashed,
        said: &Said,
    ) -> Result<(), OutOfMemory>
        requires { AreEchoes reader.now.names self.old }
        ensures echoes { OnOk result (AreEchoes reader.now.names self.new) }
        ensures told { OnOk result (string_bytes text.new
            ≡ string_bytes text.old ++ body_text reader.now.names (body_said said.now)) }
    {
        match said {
            Said::Proposal(_) => Ok(self.proposal.push(text, reader, hashed, said)?),
            Said::Validation(_) => Ok(self.validation.push(text, reader, hashed, said)?),
            Said::Header(_) => Ok(self.header.push(text, reader, hashed, said)?),
            Said::Tx(_) => Ok(self.tx.push(text, reader, hashed, said)?),
        }
    }
}

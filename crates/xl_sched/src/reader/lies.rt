// What liars say.
ghost use Rattle.std.specs.Prelude.{◌≡◌, ℕ, Some, Ok, IfOk, IfSome, OnOk, option_copied};
ghost use Rattle.xl_sched.specs.Answers.{PutsEvent};
ghost use Rattle.xl_sched.specs.Lies.{may_say};

use crate::choices::full;
use crate::event::{Lied, What};
use crate::fault::{Cause, LineFault};
use crate::line::Line;
use crate::numbers::number;
use crate::reader::Reader;
use crate::tokens::Tokens;
use crate::tx_sets::tx_set;
use crate::word::LieWord;
use xl_base::{Bytes, LedgerId, NodeNo};
use xl_wire::{Proposal, Validation};

impl Reader {
    ghost use Rattle.xl_sched.specs.Fits.{IsFit, IsFitPair, IsFitLied};
    ghost use Rattle.xl_sched.specs.Lies.{pair_of, lie_of, proposal_of, said_proposal, told_if, validation_of, said_validation, said_header, said_tx_set, said_tx, lie_event};
    ghost use Rattle.xl_sched.specs.Words.{event_at};

    /// `lie f t` and what is said.
    #[inline(never)]
    pub(super) fn lie<'a>(
        &self,
        arguments: Tokens<'a>,
        said: &mut Option<Line>,
    ) -> Result<(), LineFault<'a>>
        ensures value { PutsEvent self.now result said.new (lie_event self.now arguments.entry) }
        ensures fit { (sent : ℕ) → OnOk result (IfSome said.new (IsFit self.now sent)) }
    {
        let (liar, honest, token, others) = arguments.three_and_others()?;
        let word = LieWord::of(token);
        if !may_say(word, others.count()) {
            return Err(arguments.miscounted());
        }
        let (from, to) = self.pair(liar, honest)?;
        match word {
            Some(LieWord::Proposal) => self.proposal(from, to, others, said),
            Some(LieWord::Validation) => self.validation(from, to, others, said),
            Some(LieWord::Header) => self.header(from, to, others, said),
            Some(LieWord::TxSet) => self.tx_set(from, to, others, said),
            Some(LieWord::Tx) => self.tx(from, to, others, said),
            None => Err(LineFault::with_text(Cause::Choice, token)),
        }
    }

    /// Who lies to whom.
    fn pair<'a>(&self, liar: &'a [u8], honest: &'a [u8]) -> Result<(NodeNo, NodeNo), LineFault<'a>>
        ensures value { result ≡ pair_of self.now liar.now honest.now }
        ensures fit { IfOk result (λ pair. IsFitPair self.now pair.0 pair.1) }
    {
        Ok((self.liars.declared(liar)?, self.nodes.declared(honest)?))
    }

    /// What a liar says is put into the place of the line.
    fn lies(&self, from: NodeNo, to: NodeNo, lie: Lied, said: &mut Option<Line>)
        requires pair { IsFitPair self.now from to }
        requires lie { IsFitLied lie }
        ensures value { said.new ≡ Some (event_at self.now (What.Lie from to lie)) }
        ensures fit { (sent : ℕ) → IfSome said.new (IsFit self.now sent) }
    {
        self.happen(
            What::Lie {
                from,
                to,
                what: lie,
            },
            said,
        );
    }

    /// `prev set pseq close time`.
    fn proposal<'a>(
        &self,
        from: NodeNo,
        to: NodeNo,
        arguments: Tokens<'a>,
        said: &mut Option<Line>,
    ) -> Result<(), LineFault<'a>>
        requires { IsFitPair self.now from to }
        ensures value { PutsEvent self.now result said.new
            (lie_of (Ok (from, to)) (said_proposal self.now.names arguments.entry)) }
        ensures fit { (sent : ℕ) → OnOk result (IfSome said.new (IsFit self.now sent)) }
    {
        let (prev, set, pseq, close, time) = arguments.five()?;
        let lie = self.proposal_of(prev, set, pseq, close, time)?;
        self.lies(from, to, lie, said);
        Ok(())
    }

    /// The parts of a proposal, from left to right.
    fn proposal_of<'a>(
        &self,
        prev: &'a [u8],
        set: &'a [u8],
        pseq: &'a [u8],
        close: &'a [u8],
        time: &'a [u8],
    ) -> Result<Lied, LineFault<'a>>
        ensures value { result ≡ proposal_of self.now.names prev.now set.now pseq.now close.now time.now }
        ensures fit { IfOk result IsFitLied }
    {
        Ok(Lied::Proposal(Proposal {
            prev: self.names.ledger_id(prev)?,
            set: self.names.set_id(set)?,
            pseq: number(pseq)?,
            close: number(close)?,
            time: number(time)?,
        }))
    }

    /// `seq id signed full`, or `partial`, and one id more in version 2.
    fn validation<'a>(
        &self,
        from: NodeNo,
        to: NodeNo,
        arguments: Tokens<'a>,
        said: &mut Option<Line>,
    ) -> Result<(), LineFault<'a>>
        requires { IsFitPair self.now from to }
        ensures value { PutsEvent self.now result said.new
            (lie_of (Ok (from, to)) (said_validation self.now.names arguments.entry)) }
        ensures fit { (sent : ℕ) → OnOk result (IfSome said.new (IsFit self.now sent)) }
    {
        let lie = self.said_validation(&arguments)?;
        self.lies(from, to, lie, said);
        Ok(())
    }

    fn said_validation<'a>(&self, arguments: &Tokens<'a>) -> Result<Lied, LineFault<'a>>
        ensures value { result ≡ said_validation self.now.names arguments.now }
        ensures fit { IfOk result IsFitLied }
    {
        let Some((seq, id, signed, kind, others)) = arguments.four_and_others() else {
            return Err(arguments.miscounted());
        };
        match others.first() {
            None => self.validation_of(seq, id, signed, kind, None),
            Some((told, rest)) if rest.first().is_none() => {
                self.validation_of(seq, id, signed, kind, Some(told))
            }
            Some(_) => Err(arguments.miscounted()),
        }
    }

    /// The ledger that a validation tells as the last reported one, if it tells one.
    fn told<'a>(&self, id: Option<&'a [u8]>) -> Result<Option<LedgerId>, LineFault<'a>>
        ensures { result ≡ told_if self.now.names (option_copied id.entry) }
    {
        match id {
            Some(id) => Ok(Some(self.names.ledger_id(id)?)),
            None => Ok(None),
        }
    }

    /// The parts of a validation, from left to right.
    fn validation_of<'a>(
        &self,
        seq: &'a [u8],
        id: &'a [u8],
        signed: &'a [u8],
        kind: &'a [u8],
        told: Option<&'a [u8]>,
    ) -> Result<Lied, LineFault<'a>>
        ensures value { result ≡ validation_of self.now.names seq.now id.now signed.now kind.now
            (told_if self.now.names (option_copied told.entry)) }
        ensures fit { IfOk result IsFitLied }
    {
        Ok(Lied::Validation(Validation {
            seq: number(seq)?,
            id: self.names.ledger_id(id)?,
            signed: number(signed)?,
            full: full(kind)?,
            validated: self.told(told)?,
        }))
    }

    /// `w`, which names a ledger.
    fn header<'a>(
        &self,
        from: NodeNo,
        to: NodeNo,
        arguments: Tokens<'a>,
        said: &mut Option<Line>,
    ) -> Result<(), LineFault<'a>>
        requires { IsFitPair self.now from to }
        ensures value { PutsEvent self.now result said.new
            (lie_of (Ok (from, to)) (said_header self.now.names arguments.entry)) }
        ensures fit { (sent : ℕ) → OnOk result (IfSome said.new (IsFit self.now sent)) }
    {
        let name = arguments.one()?;
        let ledger = self.names.ledger(name)?;
        let name = Bytes::from_vec(Vec::from_slice(self.alloc, name)?);
        let header = ledger.header;
        self.lies(from, to, Lied::Header { name, header }, said);
        Ok(())
    }

    /// `ids`, or `-`.
    fn tx_set<'a>(
        &self,
        from: NodeNo,
        to: NodeNo,
        arguments: Tokens<'a>,
        said: &mut Option<Line>,
    ) -> Result<(), LineFault<'a>>
        requires { IsFitPair self.now from to }
        ensures value { PutsEvent self.now result said.new
            (lie_of (Ok (from, to)) (said_tx_set self.now.names arguments.entry)) }
        ensures fit { (sent : ℕ) → OnOk result (IfSome said.new (IsFit self.now sent)) }
    {
        let token = arguments.one()?;
        let ids = tx_set(self.alloc, &self.names, token)?;
        self.lies(from, to, Lied::TxSet(ids), said);
        Ok(())
    }

    /// `id`.
    fn tx<'a>(
        &self,
        from: NodeNo,
        to: NodeNo,
        arguments: Tokens<'a>,
        said: &mut Option<Line>,
    ) -> Result<(), LineFault<'a>>
        requires { IsFitPair self.now from to }
        ensures value { PutsEvent self.now result said.new
            (lie_of (Ok (from, to)) (said_tx self.now.names arguments.entry)) }
        ensures fit { (sent : ℕ) → OnOk result (IfSome said.new (IsFit self.now sent)) }
    {
        let token = arguments.one()?;
        let tx = self.names.tx_id(token)?;
        self.lies(from, to, Lied::Tx(tx), said);
        Ok(())
    }
}

/// Whether this many tokens may stand after the word of a lie; after no such word as many as after any.
fn may_say(word: Option<LieWord>, count: usize) -> bool
    ensures { result ≡ may_say word count }
{
    match word {
        Some(LieWord::Proposal) => count == 5,
        Some(LieWord::Validation) => count == 4 || count == 5,
        Some(LieWord::Header | LieWord::TxSet | LieWord::Tx) => count == 1,
        None => count == 1 || count == 4 || count == 5,
    }
}

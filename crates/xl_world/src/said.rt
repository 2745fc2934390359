// What frames say, as it is kept.
ghost use Rattle.std.specs.Prelude.{◌≡◌, ◌^◌, ◌<◌, IfSome, IsTrue, length};
ghost use Rattle.xl_wire.specs.Bodies.{IsBody, IsProposal, IsValidation};
ghost use Rattle.xl_world.specs.Sending.{body_said};

use xl_base::{LedgerId, TxId};
use xl_wire::{Body, Proposal, Validation};

/// What a frame says, unless it is a set, which may be long.
#[derive(Clone, Copy, PartialEq, Eq)]
pub enum Said {
    Proposal(Proposal),
    Validation(Validation),
    /// A ledger's header, as its bytes.
    Header([u8; 118]),
    Tx(TxId),
}

/// What stands where it is kept what a frame says, before it is.
pub const NOTHING_SAID: Said = Said::Tx(TxId([0; 32]));

impl Said {
    /// What a body says, unless it is a set.
    pub fn of(body: &Body<'_>) -> Option<Said>
        ensures value { IfSome result (λ said. body_said said ≡ body.now) }
        ensures fits { IfSome result (λ said. IsBody (body_said said)) }
    {
        let mut said = NOTHING_SAID;
        if said.keep(body) { Some(said) } else { None }
    }

    /// Keeps what a body says, unless it is a set. Answers whether it did.
    // What is kept is large, and an answer would be copied on its way.
    pub fn keep(&mut self, body: &Body<'_>) -> bool
        ensures value { IsTrue result → body_said self.new ≡ body.now }
        ensures fits { IsTrue result → IsBody (body_said self.new) }
    {
        match body {
            Body::Proposal(proposal) => {
                proposal_fits(proposal);
                *self = Said::Proposal(*proposal);
                true
            }
            Body::Validation(validation) => {
                validation_fits(validation);
                *self = Said::Validation(*validation);
                true
            }
            Body::Header(header) => {
                header_fits(header);
                *self = Said::Header(*header);
                true
            }
            Body::Tx(tx) => {
                id_fits(&tx.0);
                *self = Said::Tx(*tx);
                true
            }
            Body::TxSet(_) => false,
        }
    }

    /// Whether it is the same as this.
    pub fn is(&self, other: &Said) -> bool
        ensures { IsTrue result → self.now ≡ other.now }
    {
        self == other
    }

    /// The body that says it.
    pub fn body(&self) -> Body<'_>
        ensures value { result ≡ body_said self.now }
        ensures fits { IsBody result }
    {
        self.fits();
        self.as_body()
    }

    // Each answer is written where it is to be: it is large, and one that is joined of several is moved there.
    fn as_body(&self) -> Body<'_>
        ensures { result ≡ body_said self.now }
    {
        match *self {
            Said::Proposal(proposal) => return Body::Proposal(proposal),
            Said::Validation(validation) => return Body::Validation(validation),
            Said::Header(header) => return Body::Header(header),
            Said::Tx(tx) => return Body::Tx(tx),
        }
    }

    /// Each of its fields is as long as its type says, which is known of a field once it is read.
    fn fits(&self)
        ensures { IsBody (body_said self.now) }
    {
        match self {
            Said::Proposal(proposal) => proposal_fits(proposal),
            Said::Validation(validation) => validation_fits(validation),
            Said::Header(header) => header_fits(header),
            Said::Tx(tx) => id_fits(&tx.0),
        }
    }
}

fn proposal_fits(proposal: &Proposal)
    ensures { IsProposal proposal.now }
{
    id_fits(&proposal.prev.0);
    id_fits(&proposal.set.0);
    number_fits(proposal.pseq);
    number_fits(proposal.close);
    number_fits(proposal.time);
}

fn validation_fits(validation: &Validation)
    ensures { IsValidation validation.now }
{
    id_fits(&validation.id.0);
    validated_fits(&validation.validated);
    number_fits(validation.seq);
    number_fits(validation.signed);
}

fn validated_fits(validated: &Option<LedgerId>)
    ensures { IfSome validated.now (λ id. length id.0 ≡ 32) }
{
    if let Some(id) = validated {
        id_fits(&id.0);
    }
}

fn header_fits(header: &[u8; 118])
    ensures { length header.now ≡ 118 }
{
    let _bytes: &[u8] = header;
}

fn id_fits(id: &[u8; 32])
    ensures { length id.now ≡ 32 }
{
    let _bytes: &[u8] = id;
}

fn number_fits(number: u32)
    ensures { number < 2 ^ 32 }
{}

ghost use Rattle.std.specs.Prelude.{◌≡◌};
ghost use Rattle.xl_peers.specs.Judging.{judgement_of};

use xl_core::{Refusal, Taken};
use xl_links::Judgement;
use xl_tags::TagRefusal;

/// How a frame was judged, by what the core answered. A transaction or a set tells no time, so it may be a copy.
pub(crate) fn judgement_of(answer: &Result<Taken, Refusal>) -> Judgement
    ensures { result ≡ judgement_of answer.now }
{
    match answer {
        Ok(Taken::Set(_) | Taken::Pending) => Judgement::Known,
        Ok(_) => Judgement::Fresh,
        Err(Refusal::Tag(TagRefusal::Stranger(_))) => Judgement::Unlisted,
        Err(Refusal::Tag(_)) => Judgement::Forged,
        Err(_) => Judgement::Known,
    }
}

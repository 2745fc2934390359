ghost use Rattle.std.specs.Prelude.{◌≡◌, ◌==◌, ◌||◌, ◌↔◌, not, is_some, IfOk, IfSome, IsTrue, Some};
ghost use Rattle.std.specs.Result.{result_err};
ghost use Rattle.xl_lists.specs.Lists.{is_on};
ghost use Rattle.xl_wire.specs.Raws.{RawFrame, IsRaw, SpellsRaw, raw_frame};
ghost use Rattle.xl_tags.specs.Opening.{refusal_of, is_sealed, HasKeys};
ghost use Rattle.xl_tags.specs.Sealing.{as_sealed, tag_by, IsWhole};

use crate::TagRefusal;
use crate::comparing::is_same_tag;
use crate::keys::Keys;
use crate::sealing::{before_tag, whole};
use xl_base::NodeNo;
use xl_lists::List;
use xl_wire::Raw;

/// Opens a whole frame: it is for me, comes from another listed member, and carries the tag under our key.
///
/// Refused as not for me, as a stranger's, or for its tag, in this order.
pub fn open(keys: &Keys, list: &List, frame: &[u8]) -> Result<(), TagRefusal>
    requires whole { IsWhole frame.now }
    requires keyed { HasKeys keys.now list.now.members }
    ensures { (f : RawFrame) → SpellsRaw f frame.now → result_err result ≡ refusal_of keys.now list.now.members f }
{
    match open_raw(keys, list, &whole(frame), frame) {
        Ok(_) => Ok(()),
        Err(refusal) => Err(refusal),
    }
}

/// Opens, as `open` does, a frame that was split off its bytes already, and answers who sent it.
pub fn open_raw(keys: &Keys, list: &List, raw: &Raw<'_>, bytes: &[u8]) -> Result<NodeNo, TagRefusal>
    requires whole { SpellsRaw (raw_frame raw.now) bytes.now }
    requires keyed { HasKeys keys.now list.now.members }
    ensures refusal { result_err result ≡ refusal_of keys.now list.now.members (raw_frame raw.now) }
    ensures sender { IfOk result (λ member. member ≡ raw.now.from) }
{
    let sender = open_as_sealed(keys, list, raw)?;
    let computed = keys.tag(raw.from, before_tag(bytes));
    if !is_same_tag(&computed, &raw.tag) {
        return Err(TagRefusal::BadTag {
            read: raw.tag,
            computed,
        });
    }
    Ok(sender)
}

/// Opens a frame as if it carried the tag under our key. Its tag isn't looked at, so no frame is refused for that.
pub fn open_as_sealed(keys: &Keys, list: &List, raw: &Raw<'_>) -> Result<NodeNo, TagRefusal>
    requires spelled { IsRaw (raw_frame raw.now) }
    requires keyed { HasKeys keys.now list.now.members }
    ensures refusal { result_err result
        ≡ refusal_of keys.now list.now.members (as_sealed keys.now (raw_frame raw.now)) }
    ensures sender { IfOk result (λ member. member ≡ raw.now.from) }
{
    if raw.to != keys.me().get() {
        return Err(TagRefusal::NotForMe(raw.to));
    }
    match another_member(keys, list, raw.from) {
        Some(sender) => Ok(sender),
        None => Err(TagRefusal::Stranger(raw.from)),
    }
}

/// The listed member other than me that has the number.
fn another_member(keys: &Keys, list: &List, number: u32) -> Option<NodeNo>
    requires { HasKeys keys.now list.now.members }
    ensures listed { is_some result ≡ not (number == keys.now.me || not (is_on list.now.members number)) }
    ensures number { IfSome result (λ member. member ≡ number) }
{
    let me = keys.me();
    let member = NodeNo::new(number)?;
    (member != me && list.has(member)).then_some(member)
}

/// Whether the frame's sender has a key here, and the frame carries the tag under it. Whom it is for isn't asked.
pub fn is_sealed(keys: &Keys, raw: &Raw<'_>, bytes: &[u8]) -> bool
    requires { SpellsRaw (raw_frame raw.now) bytes.now }
    ensures value { result ≡ is_sealed keys.now (raw_frame raw.now) }
    ensures exact { IsTrue result ↔ (tag_by keys.now raw.now.from (raw_frame raw.now) ≡ Some raw.now.tag) }
{
    keys.knows(raw.from) && is_same_tag(&keys.tag(raw.from, before_tag(bytes)), &raw.tag)
}

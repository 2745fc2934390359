use xl_base::{LedgerId, NodeNo};
use xl_tags::{hmac, pair_key};
use xl_wire::{Body, Frame, VALIDATION_FRAME, Validation, encode};

/// The bytes before the tag of a validation's frame.
const BEFORE_TAG: usize = VALIDATION_FRAME - 32;

/// The frame in which a member says that it fully validates the ledger of sequence 1 whose id is all ones, signed in
/// second 1 and sealed by the schedule's key of the two.
pub fn sealed_frame(from: NodeNo, to: NodeNo) -> [u8; VALIDATION_FRAME] {
    let validation = Validation {
        id: LedgerId([0x11; 32]),
        seq: 1,
        signed: 1,
        full: true,
        validated: None,
    };
    let frame = Frame {
        from: from.get(),
        to: to.get(),
        body: Body::Validation(validation),
        tag: [0; 32],
    };
    let mut bytes = [0; VALIDATION_FRAME];
    encode(&frame, &mut bytes);
    let tag = hmac(&pair_key(from, to), &bytes[..BEFORE_TAG]);
    bytes[BEFORE_TAG..].copy_from_slice(&tag);
    bytes
}

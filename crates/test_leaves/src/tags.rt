ghost use Rattle.std.specs.Prelude.{◌<◌, IsTrue, IfSome};
ghost use Rattle.xl_wire.specs.Raws.{SpellsRaw, raw_frame};
ghost use Rattle.xl_tags.specs.Sealing.{IsToSeal};

use hex::FromHex;
use std::test::Fail;
use xl_base::{LedgerId, NodeNo};
use xl_lists::List;
use xl_tags::{Keys, TagRefusal, hmac, open, pair_key, seal};
use xl_wire::{Body, Frame, Parted, Raw, Validation, encode, split};

/// A key, bytes, and their tag: RFC 4231's cases 1 to 4, 6 and 7.
const TAGS: [(&str, &str, &str); 6] = [
    (
        "0b0b0b0b0b0b0b0b0b0b0b0b0b0b0b0b0b0b0b0b",
        "4869205468657265",
        "b0344c61d8db38535ca8afceaf0bf12b881dc200c9833da726e9376c2e32cff7",
    ),
    (
        "4a656665",
        "7768617420646f2079612077616e7420666f72206e6f7468696e673f",
        "5bdcc146bf60754e6a042426089575c75a003f089d2739839dec58b964ec3843",
    ),
    (
        "aaaaaaaaaaaaaaaaaaaaaaaaaaaaaaaaaaaaaaaa",
        "dddddddddddddddddddddddddddddddddddddddddddddddddddddddddddddddddddddddddddddddddddddddddddddddddddd",
        "773ea91e36800e46854db8ebd09181a72959098b3ef8c122d9635514ced565fe",
    ),
    (
        "0102030405060708090a0b0c0d0e0f10111213141516171819",
        "cdcdcdcdcdcdcdcdcdcdcdcdcdcdcdcdcdcdcdcdcdcdcdcdcdcdcdcdcdcdcdcdcdcdcdcdcdcdcdcdcdcdcdcdcdcdcdcdcdcd",
        "82558a389a443c0ea4cc819899f2083a85f0faa3e578f8077a2e3ff46729665b",
    ),
    (
        "aaaaaaaaaaaaaaaaaaaaaaaaaaaaaaaaaaaaaaaaaaaaaaaaaaaaaaaaaaaaaaaaaaaaaaaaaaaaaaaaaaaaaaaaaaaaaaaaaaaaaaaaaaaaaaaaaaaaaaaaaaaaaaaaaaaaaaaaaaaaaaaaaaaaaaaaaaaaaaaaaaaaaaaaaaaaaaaaaaaaaaaaaaaaaaaaaaaaaaaaaaaaaaaaaaaaaaaaaaaaaaaaaaaaaaaaaaaaaaaaaaaaaaaaaaaaaaaaaaaaaa",
        "54657374205573696e67204c6172676572205468616e20426c6f636b2d53697a65204b6579202d2048617368204b6579204669727374",
        "60e431591ee0b67f0d8a26aacbf5b77f8e0bc6213728c5140546040f0ee37f54",
    ),
    (
        "aaaaaaaaaaaaaaaaaaaaaaaaaaaaaaaaaaaaaaaaaaaaaaaaaaaaaaaaaaaaaaaaaaaaaaaaaaaaaaaaaaaaaaaaaaaaaaaaaaaaaaaaaaaaaaaaaaaaaaaaaaaaaaaaaaaaaaaaaaaaaaaaaaaaaaaaaaaaaaaaaaaaaaaaaaaaaaaaaaaaaaaaaaaaaaaaaaaaaaaaaaaaaaaaaaaaaaaaaaaaaaaaaaaaaaaaaaaaaaaaaaaaaaaaaaaaaaaaaaaaaa",
        "5468697320697320612074657374207573696e672061206c6172676572207468616e20626c6f636b2d73697a65206b657920616e642061206c6172676572207468616e20626c6f636b2d73697a6520646174612e20546865206b6579206e6565647320746f20626520686173686564206265666f7265206265696e6720757365642062792074686520484d414320616c676f726974686d2e",
        "9b09ffa71b942fcb27635fbcd5b0e944bfdc63644f0713938a7f51535c3a35e2",
    ),
];

#[test]
fn tags_the_published_bytes(rt: HostRuntime) -> Result<(), Fail> {
    for (key, bytes, tag) in TAGS {
        let key = hex::decode(rt.alloc(), key)?;
        let bytes = hex::decode(rt.alloc(), bytes)?;
        assert_eq!(rt; hmac(&key, &bytes), <[u8; 32]>::from_hex(tag)?);
    }
    Ok(())
}

fn member(number: u32) -> Result<NodeNo, u32> {
    NodeNo::new(number).ok_or(number)
}

#[test]
fn pairs_have_keys(rt: HostRuntime) -> Result<(), Fail> {
    // By Python's hashlib.
    let cases = [
        (
            1,
            2,
            "fca3263f1304ce34a07069b71675e392dedafb1b78431f24b755aa85ba441c6a",
        ),
        (
            64,
            3,
            "3ea67f0082aa684d1270481b602103ad440dd18037e3e28250488542559ca77e",
        ),
    ];
    for (a, b, key) in cases {
        let key = <[u8; 32]>::from_hex(key)?;
        assert_eq!(rt; pair_key(member(a)?, member(b)?), key);
        assert_eq!(rt; Keys::of_schedule(member(a)?).get(member(b)?), Some(key));
    }
    Ok(())
}

/// Keys that were put, each the one that a schedule gives.
fn put_keys(me: NodeNo, others: &[u32]) -> Result<Keys, u32> {
    let mut keys = Keys::new(me);
    for number in others {
        let other = member(*number)?;
        if other != keys.me() {
            keys.put(other, pair_key(me, other));
        }
    }
    Ok(keys)
}

/// A validation, in 87 bytes, whose tag isn't written yet.
fn validation(from: u32, to: u32) -> [u8; 87] {
    let mut bytes = [0; 87];
    let frame = Frame {
        from,
        to,
        body: Body::Validation(Validation {
            id: LedgerId([7; 32]),
            seq: 9,
            signed: 10,
            full: true,
            validated: None,
        }),
        tag: [0; 32],
    };
    encode(&frame, &mut bytes);
    bytes
}

/// The frame that the bytes are, all of them.
fn one_frame(bytes: &[u8]) -> Option<Raw<'_>>
    ensures { IfSome result (λ raw. SpellsRaw (raw_frame raw) bytes.now) }
{
    match split(bytes) {
        Parted::Whole(raw) if raw.length == bytes.len() => Some(raw),
        _ => None,
    }
}

fn is_to_seal(keys: &Keys, to: NodeNo, bytes: &[u8]) -> bool
    ensures { IsTrue result → IsToSeal keys.now to bytes.now }
{
    match one_frame(bytes) {
        Some(raw) => raw.from == keys.me().get() && raw.to == to.get() && keys.has(to),
        None => false,
    }
}

/// Seals the bytes, if they are one frame from the keys' member to this one, which has a key.
fn try_seal(keys: &Keys, to: NodeNo, bytes: &mut [u8]) -> bool {
    if is_to_seal(keys, to, bytes) {
        seal(keys, to, bytes);
        true
    } else {
        false
    }
}

/// What opening says of the bytes, if they are one frame and each listed member has a key.
fn try_open(keys: &Keys, list: &List, bytes: &[u8]) -> Option<Result<(), TagRefusal>> {
    if keys.has_all(list) && one_frame(bytes).is_some() {
        Some(open(keys, list, bytes))
    } else {
        None
    }
}

fn flipped(mut frame: [u8; 87], place: usize, bit: u8) -> [u8; 87]
    requires { place < 87 }
{
    frame[place] ^= bit;
    frame
}

fn tag_in(frame: &[u8; 87]) -> &[u8] {
    &frame[55..]
}

/// By Python's hmac.
const TAG: &str = "9a3f280e8352296a1478627f784bafec7ba617b306ec5ae0e1b5db64a2b68506";

#[test]
fn a_frame_is_sealed_and_opened(rt: HostRuntime) -> Result<(), Fail> {
    let list = List::new(&[1, 2, 3], 2)?;
    let keys = put_keys(member(2)?, &[1, 3])?;
    let mut frame = validation(1, 2);
    assert!(rt; try_seal(&Keys::of_schedule(member(1)?), member(2)?, &mut frame));
    assert_eq!(rt; tag_in(&frame), hex::decode(rt.alloc(), TAG)?.as_slice());
    assert_eq!(rt; try_open(&keys, &list, &frame), Some(Ok(())));
    for place in 0..87 {
        for bit in [1, 2, 4, 8, 16, 32, 64, 128] {
            assert!(rt; try_open(&keys, &list, &flipped(frame, place, bit)) != Some(Ok(())));
        }
    }
    Ok(())
}

#[test]
fn refuses_another_tag(rt: HostRuntime) -> Result<(), Fail> {
    let list = List::new(&[1, 2, 3], 2)?;
    let keys = Keys::of_schedule(member(2)?);
    let refusal = TagRefusal::BadTag {
        read: [0; 32],
        computed: <[u8; 32]>::from_hex(TAG)?,
    };
    assert_eq!(rt;
        try_open(&keys, &list, &validation(1, 2)),
        Some(Err(refusal))
    );
    assert_eq!(rt; refusal.code(), 10);
    Ok(())
}

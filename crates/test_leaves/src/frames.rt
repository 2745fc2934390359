use std::test::Fail;
use xl_base::LedgerId;
use xl_wire::{
    Body, Decoded, Feed, Frame, Next, Parted, Validation, WireRefusal, decode, encode, split,
};

const SAID: Validation = Validation {
    id: LedgerId([7; 32]),
    seq: 9,
    signed: 10,
    full: true,
    validated: None,
};

/// A full validation from 1 to 2, in 87 bytes.
fn validation() -> [u8; 87] {
    let mut bytes = [0; 87];
    let frame = Frame {
        from: 1,
        to: 2,
        body: Body::Validation(SAID),
        tag: [5; 32],
    };
    encode(&frame, &mut bytes);
    bytes
}

#[test]
fn a_frame_is_written_and_read(rt: HostRuntime) {
    let bytes = validation();
    assert_eq!(rt; &bytes[..6], [0x58, 0x4C, 1, 2, 0, 0x29].as_slice());
    assert!(rt; matches!(split(&bytes[..5]), Parted::Need(1)));
    match decode(&bytes) {
        Decoded::Whole(frame, length) => {
            assert_eq!(rt; (frame.from, frame.to, length), (1, 2, 87));
            assert!(rt; matches!(frame.body, Body::Validation(v) if v == SAID));
        }
        _ => assert!(rt; false),
    }
}

#[test]
fn a_frame_of_version_2_is_written_and_read(rt: HostRuntime) {
    let said = Validation {
        validated: Some(LedgerId([8; 32])),
        ..SAID
    };
    let mut bytes = [0; 119];
    let frame = Frame {
        from: 1,
        to: 2,
        body: Body::Validation(said),
        tag: [5; 32],
    };
    assert_eq!(rt; encode(&frame, &mut bytes), 119);
    assert_eq!(rt; &bytes[..6], [0x58, 0x4C, 2, 2, 0, 0x49].as_slice());
    assert_eq!(rt; &bytes[55..87], [8; 32].as_slice());
    match decode(&bytes) {
        Decoded::Whole(frame, length) => {
            assert_eq!(rt; length, 119);
            assert!(rt; matches!(frame.body, Body::Validation(v) if v == said));
        }
        _ => assert!(rt; false),
    }
}

/// The code and the values of the refusal, if bytes are refused.
fn refusal(bytes: &[u8]) -> Option<WireRefusal> {
    match split(bytes) {
        Parted::Refused(refusal) => Some(refusal),
        _ => None,
    }
}

#[test]
fn refuses_by_the_version(rt: HostRuntime) {
    let heads: [(&[u8], Option<WireRefusal>); 6] = [
        (&[0x58, 0x4C, 3], Some(WireRefusal::Version(3))),
        (&[0x58, 0x4C, 0, 2], Some(WireRefusal::Version(0))),
        (&[0x58, 0x4C, 2, 3], Some(WireRefusal::Kind(3))),
        (
            &[0x58, 0x4C, 2, 2, 0, 41],
            Some(WireRefusal::Length {
                kind: 2,
                length: 41,
            }),
        ),
        (
            &[0x58, 0x4C, 1, 2, 0, 73],
            Some(WireRefusal::Length {
                kind: 2,
                length: 73,
            }),
        ),
        (&[0x58, 0x4C, 2, 2, 0, 73], None),
    ];
    for (head, refused) in heads {
        assert_eq!(rt; refusal(head), refused);
    }
}

#[test]
fn a_feed_hands_frames_out(rt: HostRuntime) -> Result<(), Fail> {
    let bytes = validation();
    let mut feed = Feed::open(rt.alloc())?;
    assert_eq!(rt; feed.push(&bytes), 87);
    assert!(rt; matches!(feed.next(), Next::Frame(_, frame) if frame == bytes.as_slice()));
    assert_eq!(rt; feed.push(&[0x57]), 1);
    assert!(rt; matches!(feed.next(), Next::Refused(refusal) if refusal.code() == 1));
    Ok(())
}

/// The last byte of the last of two ids.
fn last_byte(body: &Body<'_>) -> Option<u8> {
    match body {
        Body::TxSet(ids) if ids.len() == 2 => Some(ids.get(1).0[31]),
        _ => None,
    }
}

#[test]
fn reads_a_set(rt: HostRuntime) {
    let mut bytes = [0; 112];
    bytes[..6].copy_from_slice(&[0x58, 0x4C, 1, 4, 0, 66]);
    bytes[15] = 2;
    bytes[79] = 9;
    match decode(&bytes) {
        Decoded::Whole(frame, _) => assert_eq!(rt; last_byte(&frame.body), Some(9)),
        _ => assert!(rt; false),
    }
}

// What is written comes.
use crate::peers::{
    FRAME, Peers, assert_each, byte_at, clock_of, dialler, front, gives, listener, opens, takes,
    takes_front,
};
use std::alloc::Global;
use std::test::Fail;
use std::thread;
use xl_io::Wrote;
use xl_links::{Clock, Link, LinkRead, Opening};

#[test]
fn bytes_pass_over_loopback(rt: HostRuntime) -> Result<(), Fail> {
    let clock = clock_of(&rt)?;
    let mut listening = listener(&rt)?;
    let mut dialling = dialler(&rt, &listening)?;
    let mut bytes = [0; 100];
    for (place, byte) in bytes.iter_mut().enumerate() {
        *byte = byte_at(place);
    }
    let mut room = [0; 100];
    // No peer is there yet.
    let before = [
        listening.open() == Opening::NotYet,
        listening.read(&mut room) == LinkRead::End,
        listening.write(b"x") == Wrote::Failed,
    ];
    let both = [
        gives(&clock, &mut dialling, &bytes),
        takes(&clock, &mut listening, &mut room) == 100,
        room == bytes,
        // Nothing more comes, and then the peer goes.
        listening.read(&mut room) == LinkRead::Idle,
    ];
    drop(dialling);
    let after = [
        listening.read(&mut room) == LinkRead::End,
        listening.open() == Opening::NotYet,
    ];
    assert_each(&rt, &before);
    assert_each(&rt, &both);
    assert_each(&rt, &after);
    Ok(())
}

/// How a link opens that dials where nobody listens any more.
fn opens_without_peer(rt: &HostRuntime) -> Result<Opening, Fail> {
    let listening = listener(rt)?;
    let mut dialling = dialler(rt, &listening)?;
    drop(listening);
    Ok(dialling.open())
}

#[test]
fn a_member_that_is_not_there_is_awaited(rt: HostRuntime) -> Result<(), Fail> {
    assert!(rt; opens_without_peer(&rt)? == Opening::NotYet);
    Ok(())
}

/// How many bytes each of two peers writes before it reads any.
const LONG: usize = 16_000_000;

/// Writes all the bytes, in whichever pieces they are taken.
fn writes_all<L: Link>(link: &mut L, bytes: &[u8]) -> bool {
    let mut given = 0;
    for _ in 0..bytes.len() {
        if given >= bytes.len() {
            break;
        }
        match link.write(&bytes[given..]) {
            Wrote::Took(count) => given = given.saturating_add(count),
            Wrote::Failed => return false,
        }
    }
    given >= bytes.len()
}

/// Reads as many bytes as these, and says whether they are these.
fn reads_all<L: Link>(link: &mut L, bytes: &[u8]) -> bool {
    let mut room = [0; 8192];
    let mut rest = bytes;
    for _ in 0..bytes.len() {
        if rest.is_empty() {
            break;
        }
        let LinkRead::Got(count) = link.read(&mut room) else {
            return false;
        };
        if count > rest.len() || room[..count] != rest[..count] {
            return false;
        }
        rest = &rest[count..];
    }
    rest.is_empty()
}

/// Opens a link, writes all the bytes, and then reads as many and the same.
fn exchanges<C: Clock, L: Link>(clock: &C, link: &mut L, bytes: &[u8]) -> bool {
    opens(clock, link) && writes_all(link, bytes) && reads_all(link, bytes)
}

/// The frame, and behind it what repeats after 251 bytes.
fn said(alloc: Global) -> Result<Vec<u8>, Fail> {
    let mut bytes = front().to_vec(alloc)?;
    for place in FRAME..LONG {
        bytes.push((place % 251) as u8)?;
    }
    Ok(bytes)
}

#[test]
fn two_peers_may_write_at_once(rt: HostRuntime) -> Result<(), Fail> {
    let clock = clock_of(&rt)?;
    let bytes = said(rt.alloc())?;
    let mut peers = Peers::new(&rt)?;
    let (one, other) = (&mut peers.listening, &mut peers.first);
    let mut each = (false, false);
    thread::join_mut(
        &rt,
        &mut || each.0 = exchanges(&clock, one, &bytes),
        &mut || each.1 = exchanges(&clock, other, &bytes),
    );
    assert!(rt; each == (true, true));
    Ok(())
}

#[test]
fn a_peer_that_does_not_read_is_left(rt: HostRuntime) -> Result<(), Fail> {
    let clock = clock_of(&rt)?;
    let bytes = said(rt.alloc())?;
    let mut peers = Peers::new(&rt)?;
    let steps = [
        gives(&clock, &mut peers.first, &front()),
        opens(&clock, &mut peers.listening),
        !writes_all(&mut peers.first, &bytes),
    ];
    assert_each(&rt, &steps);
    Ok(())
}

/// Writes two pieces, with a moment behind each.
fn writes_pieces<C: Clock, L: Link>(clock: &C, link: &mut L) {
    for piece in [b"abc", b"def"] {
        link.write(piece);
        clock.wait(10);
    }
}

#[test]
fn a_read_gathers_what_comes_soon(rt: HostRuntime) -> Result<(), Fail> {
    let clock = clock_of(&rt)?;
    let mut peers = Peers::new(&rt)?;
    let (reader, writer) = (&mut peers.listening, &mut peers.first);
    let steps = [gives(&clock, writer, &front()), takes_front(&clock, reader)];
    let mut room = [0; 8];
    let mut got = LinkRead::End;
    thread::join_mut(
        &rt,
        &mut || got = reader.read(&mut room),
        &mut || writes_pieces(&clock, writer),
    );
    assert_each(&rt, &steps);
    assert!(rt; got == LinkRead::Got(6) && room == *b"abcdef\0\0");
    Ok(())
}

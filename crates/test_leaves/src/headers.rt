use hex::FromHex;
use std::test::Fail;
use xl_base::LedgerId;
use xl_ledger::{Header, LedgerNo, Registry, header_bytes, id_of, read_header, root_header};

/// The first header of the real network, and its id.
const GENESIS: &str =
    "00000001016345785d8a000000000000000000000000000000000000000000000000000000000000000000000000000000000000000000000000000000000000000000000000000000000000a21ed30c04c88046fc61db9dc19375eedbd365fd8c17286f27127df804e9caa600000000000000001e00";

const GENESIS_ID: &str = "ab868a6cfeec779c2ff845c0af00a642259986af40c01976a7f842b6918936c7";

#[test]
fn reads_writes_and_names_the_first_header(rt: HostRuntime) -> Result<(), Fail> {
    let bytes = <[u8; 118]>::from_hex(GENESIS)?;
    let header = read_header(&bytes);
    assert_eq!(rt;
        (header.seq, header.drops, header.resolution, header.flags),
        (1, 100_000_000_000_000_000, 30, 0)
    );
    assert_eq!(rt; header_bytes(&header), bytes);
    assert_eq!(rt; id_of(&header), LedgerId(<[u8; 32]>::from_hex(GENESIS_ID)?));
    Ok(())
}

/// A ledger that follows another.
fn child(parent: LedgerId, seq: u32, mark: u8) -> Header {
    Header {
        seq,
        parent,
        tx_hash: [mark; 32],
        close: 30,
        ..root_header()
    }
}

/// The example in the head of xl_ledger.
#[test]
fn walks_along_two_chains(rt: HostRuntime) -> Result<(), Fail> {
    let mut registry = Registry::open(rt.alloc(), 4)?;
    let a = child(LedgerId([0; 32]), 1, 1);
    let fork = registry.add(&a)?;
    let left = registry.add(&child(id_of(&a), 2, 2))?;
    let right = registry.add(&child(id_of(&a), 2, 3))?;
    let mut walk = registry.walk();
    assert_eq!(rt; walk.common(left, right), fork);
    assert_eq!(rt; walk.ancestor(right, 0), LedgerNo::root());
    Ok(())
}

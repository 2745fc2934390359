use hex::FromHex;
use std::test::Fail;
use xl_base::{SetId, TxId, half512, set_id};

/// A message's bytes and its half hash, as hexadecimal digits.
const VECTORS: [(&str, &str); 4] = [
    // FIPS 180-4's examples of SHA-512, and the empty message.
    (
        "",
        "cf83e1357eefb8bdf1542850d66d8007d620e4050b5715dc83f4a921d36ce9ce",
    ),
    (
        "616263",
        "ddaf35a193617abacc417349ae20413112e6fa4e89a97ea20a9eeee64b55d39a",
    ),
    (
        "61626364656667686263646566676869636465666768696a6465666768696a6b65666768696a6b6c666768696a6b6c6d6768696a6b6c6d6e68696a6b6c6d6e6f696a6b6c6d6e6f706a6b6c6d6e6f70716b6c6d6e6f7071726c6d6e6f707172736d6e6f70717273746e6f707172737475",
        "8e959b75dae313da8cf4f72814fc143f8f7779c6eb9f7fa17299aeadb6889018",
    ),
    // The first ledger of the real network: the prefix of headers, and the header's 118 bytes.
    (
        "4c57520000000001016345785d8a000000000000000000000000000000000000000000000000000000000000000000000000000000000000000000000000000000000000000000000000000000000000a21ed30c04c88046fc61db9dc19375eedbd365fd8c17286f27127df804e9caa600000000000000001e00",
        "ab868a6cfeec779c2ff845c0af00a642259986af40c01976a7f842b6918936c7",
    ),
];

#[test]
fn hashes_the_published_messages(rt: HostRuntime) -> Result<(), Fail> {
    for (message, half) in VECTORS {
        let message = hex::decode(rt.alloc(), message)?;
        assert_eq!(rt; half512(&message), <[u8; 32]>::from_hex(half)?);
    }
    Ok(())
}

/// How many of the ids 11.. and 22.. a set has, and its id, computed by Python's hashlib.
const SETS: [(usize, &str); 3] = [
    (
        0,
        "35b70475ec8d5972e6b226c73aca843d780dd36420cf49ebdef1b71bd76e0047",
    ),
    (
        1,
        "1e362b5f8840cd8acf8660e879df8db0d9ebb829b31d47345b9a2b862a2068e1",
    ),
    (
        2,
        "149f9081b77fd08e04fbf55557805f7186ff580d80c2fec06720357ff58b5775",
    ),
];

#[test]
fn names_sets_by_their_ids(rt: HostRuntime) -> Result<(), Fail> {
    let ids = [TxId([0x11; 32]), TxId([0x22; 32])];
    for (count, digits) in SETS {
        assert_eq!(rt; set_id(&ids[..count]), SetId(<[u8; 32]>::from_hex(digits)?));
    }
    Ok(())
}

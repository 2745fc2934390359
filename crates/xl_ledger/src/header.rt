ghost use Rattle.std.specs.Prelude.{◌≡◌, ◌+◌, ◌-◌, ◌^◌, ◌<◌, ◌≤◌, [], ◌∷◌, length};
ghost use Rattle.xl_base.specs.Putting.{Puts};
ghost use Rattle.xl_ledger.specs.Headers.{IsHeader, spelling, header_id, account_hash_after, close_after, next_header};
ghost use Rattle.xl_ledger.specs.Chains.{root_header};
ghost use Rattle.xl_ledger.specs.Reading.{header_in};
ghost use Rattle.xl_ledger.specs.declared.header.Header.{Header};

use byteorder::{BigEndian, ByteOrder};
use xl_base::{LedgerId, Secs, Seq, SetId, bytes_at, half512, put, put_field, put_u32, put_u64};

/// What a ledger says of itself. Any values of the fields make a header.
#[derive(Clone, Copy, Debug, PartialEq, Eq)]
pub struct Header {
    pub seq: Seq,
    /// All drops of XRP there are.
    pub drops: u64,
    /// The ledger that it follows.
    pub parent: LedgerId,
    /// The id of its set of transactions.
    pub tx_hash: [u8; 32],
    pub account_hash: [u8; 32],
    /// When the parent closed.
    pub parent_close: Secs,
    pub close: Secs,
    /// To how many seconds close times are rounded.
    pub resolution: u8,
    /// Bit 0 says that there was no agreement on the close time.
    pub flags: u8,
}

/// The one spelling of a header.
pub fn header_bytes(h: &Header) -> [u8; 118]
    ensures spelled { result ≡ spelling h.now }
    ensures fits { IsHeader h.now }
{
    let mut bytes = [0; 118];
    put_u32(&mut bytes, 0, h.seq);
    put_u64(&mut bytes, 4, h.drops);
    put_field(&mut bytes, 12, &h.parent.0);
    put_field(&mut bytes, 44, &h.tx_hash);
    put_field(&mut bytes, 76, &h.account_hash);
    put_u32(&mut bytes, 108, h.parent_close);
    put_u32(&mut bytes, 112, h.close);
    put_two(&mut bytes, 116, h.resolution, h.flags);
    bytes
}

fn put_two(room: &mut [u8], at: usize, first: u8, second: u8)
    requires { at + 2 ≤ length room.old }
    ensures puts { Puts at (first ∷ second ∷ []) room.old room.new }
    ensures first { first < 2 ^ 8 }
    ensures second { second < 2 ^ 8 }
{
    put(room, at, &[first, second]);
}

/// The header of a spelling; each 118 bytes are one.
pub fn read_header(bytes: &[u8; 118]) -> Header
    ensures exact { result ≡ header_in bytes.now }
    // The bytes spell the header that is read.
    ensures spelled { spelling result ≡ bytes.now }
    // The bytes of a header are read as that header.
    ensures only { (h : Header) → IsHeader h → bytes.now ≡ spelling h → result ≡ h }
{
    read(bytes)
}

fn read(bytes: &[u8]) -> Header
    requires { length bytes.now ≡ 118 }
    ensures exact { result ≡ header_in bytes.now }
    ensures spelled { spelling result ≡ bytes.now }
{
    fields_of(bytes)
}

fn fields_of(bytes: &[u8]) -> Header
    requires { length bytes.now ≡ 118 }
    ensures { result ≡ header_in bytes.now }
{
    Header {
        seq: BigEndian::read_u32(bytes),
        drops: BigEndian::read_u64(&bytes[4..]),
        parent: LedgerId(bytes_at(bytes, 12)),
        tx_hash: bytes_at(bytes, 44),
        account_hash: bytes_at(bytes, 76),
        parent_close: BigEndian::read_u32(&bytes[108..]),
        close: BigEndian::read_u32(&bytes[112..]),
        resolution: bytes[116],
        flags: bytes[117],
    }
}

/// The id of a ledger: the half hash of `LWR`, a zero byte, and the header's bytes.
pub fn id_of(h: &Header) -> LedgerId
    ensures { result ≡ header_id h.now }
{
    let mut bytes = [0; 122];
    put(&mut bytes, 0, b"LWR\0");
    put(&mut bytes, 4, &header_bytes(h));
    LedgerId(half512(&bytes))
}

/// The header of the root, which follows no ledger and is known to everyone.
pub fn root_header() -> Header
    ensures { result ≡ root_header }
{
    Header {
        seq: 0,
        drops: 100_000_000_000_000_000,
        parent: LedgerId([0; 32]),
        tx_hash: [0; 32],
        account_hash: [0; 32],
        parent_close: 0,
        close: 0,
        resolution: 30,
        flags: 0,
    }
}

/// The header of the ledger that follows the parent by the set that was agreed on.
///
/// The close time is handed in as it is to stand. If there was no agreement on one, it is 0: the ledger then closes
/// a second after its parent, and its flags say so.
pub fn build_next(
    parent_id: LedgerId,
    parent: &Header,
    set: SetId,
    close: Secs,
    resolution: u8,
) -> Header
    requires { parent.now.seq < 2 ^ 32 - 1 }
    ensures { result ≡ next_header parent_id parent.now set close resolution }
{
    Header {
        seq: parent.seq + 1,
        drops: parent.drops,
        parent: parent_id,
        tx_hash: set.0,
        account_hash: account_hash_after(parent, set),
        parent_close: parent.close,
        close: close_after(parent, close),
        resolution,
        flags: if close == 0 { 1 } else { 0 },
    }
}

fn account_hash_after(parent: &Header, set: SetId) -> [u8; 32]
    ensures { result ≡ account_hash_after parent.now set }
{
    let mut bytes = [0; 68];
    put(&mut bytes, 0, b"STA\0");
    put_field(&mut bytes, 4, &parent.account_hash);
    put_field(&mut bytes, 36, &set.0);
    half512(&bytes)
}

fn close_after(parent: &Header, close: Secs) -> Secs
    ensures { result ≡ close_after parent.now close }
{
    if close == 0 {
        parent.close.saturating_add(1)
    } else {
        close
    }
}

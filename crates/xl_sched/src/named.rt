use xl_base::Bytes;
use xl_ledger::Header;

/// A declared name, and the 32 bytes that it stands for: the id of a ledger, a set or a transaction.
#[derive(Drop)]
pub struct Named {
    pub name: Bytes,
    pub id: [u8; 32],
    /// The header, if the name was declared by one. The id is then the header's.
    pub header: Option<Header>,
}

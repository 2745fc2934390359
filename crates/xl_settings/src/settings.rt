use crate::Peers;
use xl_base::{Bytes, Millis, NodeNo, TxIds};
use xl_board::FilePath;
use xl_lists::List;
use xl_publish::Publishing;

/// What a node is run with.
#[derive(Drop)]
pub struct Settings {
    /// The node's number.
    pub me: NodeNo,
    /// The members that it hears, and their quorum: as stated, or as publishers make it at the moment of the opening.
    pub list: List,
    /// Whether it is a validator. One that isn't observes: it proposes no position, and validates no ledger.
    pub validating: bool,
    /// How many ledgers it may know, the root among them: 2 to 262,144.
    pub limit: u32,
    /// How many turns its store may take: 1 to 2 to the power of 62.
    pub turns: u64,
    /// The milliseconds from heartbeat to heartbeat, 100 to 10,000.
    pub heartbeat_ms: Millis,
    /// After how many milliseconds its run ends: up to 1,000,000,000,000, and 0 if it has no end.
    pub run_ms: Millis,
    /// The transactions that it submits when it opens, at most 256. One may stand twice, its digits of either case.
    pub submit: TxIds,
    /// Its peers, among them each listed member but itself, and each that a kept roll names.
    pub peers: Peers,
    /// The version of its validations, 1 or 2.
    pub speak: u8,
    /// The publishers that make its list, if it isn't stated.
    pub publishing: Option<Publishing>,
    /// Whether its journal is written once it has run.
    pub journal: bool,
    /// Whether a journal that is written holds keys and tags. One that is handed on is best without.
    pub journal_keys: bool,
    /// The file to which its journal is written as it goes, if it is. It isn't written behind the run then.
    pub journal_file: Option<FilePath>,
    /// How many bytes of its journal are written to that file: 1 to 1,000,000,000,000.
    pub journal_bytes: u64,
    /// Where its status is told, if it is.
    pub status: Option<FilePath>,
    /// The text of rolls that is looked at while it runs, if one is. There are publishers then.
    pub rolls: Option<FilePath>,
    /// The address of the loopback at which clients hand transactions in while it runs, if they may.
    pub submit_at: Option<Bytes>,
}

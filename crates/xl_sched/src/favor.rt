use xl_base::{NodeNo, TxIds};

/// From here on a member votes for this fee and for these amendments, at most 32.
#[derive(Drop)]
pub struct Favor {
    pub member: NodeNo,
    pub fee: u32,
    pub ids: TxIds,
}

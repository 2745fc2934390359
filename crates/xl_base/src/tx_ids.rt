ghost use Rattle.std.specs.Prelude.{◌≡◌};

use crate::TxId;
use std::marker::Model;

/// A vector of transactions' ids, which contracts see as a list.
#[derive(Drop)]
pub struct TxIds {
    ids: Vec<TxId>,
}

impl Model for TxIds {
    ghost use Rattle.std.specs.Prelude.{List};
    ghost use Rattle.xl_base.specs.declared.ids.TxId.{TxId};

    ghost Value = { List TxId };

    ghost view = { λ a. a.ids.items };
}

impl TxIds {
    /// These ids. It takes no memory.
    pub fn from_vec(ids: Vec<TxId>) -> Self
        ensures { result ≡ ids.items }
    {
        TxIds { ids }
    }

    pub fn as_slice(&self) -> &[TxId]
        ensures { result.now ≡ self.now }
    {
        &self.ids
    }
}

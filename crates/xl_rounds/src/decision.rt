use xl_closetime::Choice;

/// What the votes on transactions and the close times came to.
#[derive(Clone, Copy)]
pub(crate) struct Decision {
    /// Whether our set changed.
    pub(crate) changed: bool,
    pub(crate) choice: Choice,
}

use xl_base::{Bytes, Millis};

/// What a line says, unless it is passed over.
#[derive(Drop)]
pub enum Line {
    /// A publisher has this key, which had none before.
    Publisher { publisher: u32, key: [u8; 32] },
    /// This many publishers must name a member from here on.
    Threshold(u32),
    /// A roll comes.
    Roll(Bytes),
    /// This is the moment in force from here on. It may be an earlier one than before.
    At(Millis),
    /// The list in force is asked.
    List,
}

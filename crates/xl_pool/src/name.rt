/// The name of a value in a pool: its slot, and the slot's generation at the time.
#[derive(Clone, Copy, PartialEq, Eq)]
pub struct Name {
    pub slot: u32,
    pub generation: u32,
}

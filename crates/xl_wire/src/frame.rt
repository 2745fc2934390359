use crate::Body;

/// A frame whose body is read.
#[derive(Drop)]
pub struct Frame<'a> {
    /// The member that sent it: any number.
    pub from: u32,
    /// The member that it is for: any number.
    pub to: u32,
    pub body: Body<'a>,
    /// The seal over all bytes before it.
    pub tag: [u8; 32],
}

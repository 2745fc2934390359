use xl_base::NodeNo;

/// An entry of a journal, both counted from 1, has a frame of this member: the journal's node heard it from the member,
/// or is the member and gave it.
#[derive(Clone, Copy)]
pub struct Noted<'a> {
    pub member: NodeNo,
    pub journal: u32,
    pub entry: u64,
    pub frame: &'a [u8],
}

/// For how many reports there is room each time that reports are taken.
pub const ROOM: usize = 1024;

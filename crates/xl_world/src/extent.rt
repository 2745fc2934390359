/// How much a world has told: so many frames, validations, reports and lists, and the mark and the count as they are.
#[derive(Clone, Copy)]
pub struct Extent {
    pub sent: usize,
    pub mark: usize,
    pub said: usize,
    pub reports: usize,
    pub lists: usize,
    pub forged: u64,
}

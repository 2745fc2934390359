ghost use Rattle.std.specs.Prelude.{◌≡◌, [], not};

use crate::link::Opening;
use std::alloc::Global;

/// The calls of a link in memory that are answered otherwise than by what it holds, by their numbers: openings, reads,
/// writes and questions are each counted from 1. Of a number in several lists of one kind the first list decides.
#[derive(Drop)]
pub struct LinkScript {
    pub failing_openings: Vec<u64>,
    /// The openings at which no peer is there.
    pub not_yet: Vec<u64>,
    pub failing_reads: Vec<u64>,
    /// The reads within which no byte comes.
    pub idle: Vec<u64>,
    /// The reads at which the connection ends, whatever is left.
    pub ends: Vec<u64>,
    pub failing_writes: Vec<u64>,
    /// The questions to which it says that its peer may not be spoken to.
    pub untold: Vec<u64>,
}

/// How a read goes.
#[derive(Clone, Copy, PartialEq, Eq)]
pub(crate) enum Course {
    Gives,
    Idles,
    Ends,
    Fails,
}

impl LinkScript {
    ghost use Rattle.xl_links.specs.Scripts.{course_at, is_listed, opening_at};

    /// A script that lists no call.
    pub fn new(alloc: Global) -> Self
        ensures openings { (result.failing_openings.items ≡ []) × (result.not_yet.items ≡ []) }
        ensures reads { (result.failing_reads.items ≡ []) × (result.idle.items ≡ []) × (result.ends.items ≡ []) }
        ensures writes { result.failing_writes.items ≡ [] }
        ensures questions { result.untold.items ≡ [] }
    {
        LinkScript {
            failing_openings: Vec::new(alloc),
            not_yet: Vec::new(alloc),
            failing_reads: Vec::new(alloc),
            idle: Vec::new(alloc),
            ends: Vec::new(alloc),
            failing_writes: Vec::new(alloc),
            untold: Vec::new(alloc),
        }
    }

    /// What the opening of this number answers.
    pub(crate) fn opening(&self, number: u64) -> Opening
        ensures { result ≡ opening_at self.now number }
    {
        if self.failing_openings.contains(&number) {
            Opening::Failed
        } else if self.not_yet.contains(&number) {
            Opening::NotYet
        } else {
            Opening::Open
        }
    }

    /// How the read of this number goes.
    pub(crate) fn course(&self, number: u64) -> Course
        ensures { result ≡ course_at self.now number }
    {
        if self.failing_reads.contains(&number) {
            Course::Fails
        } else if self.idle.contains(&number) {
            Course::Idles
        } else if self.ends.contains(&number) {
            Course::Ends
        } else {
            Course::Gives
        }
    }

    /// Whether the peer may be spoken to at the question of this number.
    pub(crate) fn permits(&self, number: u64) -> bool
        ensures { result ≡ not (is_listed self.now.untold.items number) }
    {
        !self.untold.contains(&number)
    }

    /// Whether the write of this number fails.
    pub(crate) fn write_fails(&self, number: u64) -> bool
        ensures { result ≡ is_listed self.now.failing_writes.items number }
    {
        self.failing_writes.contains(&number)
    }
}

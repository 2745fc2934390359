use std::sync::atomic::{AtomicU64, Ordering};
use xl_io::Wrote;
use xl_links::{Judgement, Link, LinkRead, Opening, PlainLink};

/// A link in memory that gives its bytes and is idle from then on. It counts its reads.
#[derive(Drop)]
pub struct CountedLink<'a> {
    pub source: PlainLink,
    pub reads: &'a AtomicU64,
}

impl Link for CountedLink<'_> {
    ghost use Rattle.xl_links.specs.Memory.{plain_wire};

    ghost shows = { λ link. plain_wire link.source };

    fn open(&mut self) -> Opening {
        self.source.open()
    }

    fn read(&mut self, room: &mut [u8]) -> LinkRead {
        self.reads.fetch_add(1, Ordering::SeqCst);
        match self.source.read(room) {
            LinkRead::End => LinkRead::Idle,
            answer => answer,
        }
    }

    fn write(&mut self, piece: &[u8]) -> Wrote {
        self.source.write(piece)
    }

    fn may_tell(&mut self) -> bool {
        self.source.may_tell()
    }

    fn judged(&mut self, judgement: Judgement) {
        self.source.judged(judgement);
    }
}

ghost use Rattle.std.specs.Prelude.{◌≡◌, ◌++◌, [], ◌∷◌};

use http_server::Log;
use std::marker::Model;

/// The entries of all turns so far, oldest first, which only contracts see. It takes no memory, and its methods do
/// nothing when they run.
#[derive(Drop)]
pub struct Journal<E> {
    log: Log<E, ()>,
}

impl<E> Model for Journal<E> {
    ghost use Rattle.std.specs.Prelude.{List};
    ghost use Rattle.xl_turns.specs.Firsts.{firsts};

    ghost Value = { List E };

    ghost view = { λ journal. firsts journal.log.items };
}

impl<E> Journal<E> {
    /// No entry yet.
    pub(crate) fn new() -> Journal<E>
        ensures { result ≡ [] }
    {
        Journal { log: Log::new() }
    }

    /// With one entry more.
    #[tactic(auto, using(crate::proofs::Entries::firsts_more))]
    pub(crate) fn with(&self, entry: &E) -> Journal<E>
        ensures { result ≡ self.now ++ entry.now ∷ [] }
    {
        Journal {
            log: self.log.and(entry, &()),
        }
    }
}

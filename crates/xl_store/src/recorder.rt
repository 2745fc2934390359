ghost use Rattle.std.specs.Prelude.{List};
ghost use Rattle.xl_store.specs.declared.retention.Batch.{Batch as TheBatch};

use crate::Batch;

/// Where a journal goes as it comes.
pub trait Recorder {
    /// What it is with a batch more.
    ghost records: { Self → TheBatch → Self → Type 0 };

    /// Takes entries that a store hands on.
    fn record(&mut self, batch: Batch)
        ensures { records self.old batch self.new };
}

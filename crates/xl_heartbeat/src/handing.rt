ghost use Rattle.std.specs.Prelude.{option_to_list, [], ◌∷◌};
ghost use Rattle.xl_store.specs.Recording.{RecordsIf};

use xl_store::{Batch, Recorder};

/// Hands on what a turn hands on, if that is a batch and there is a recorder.
pub(crate) fn hand_on<R: Recorder>(recorder: &mut Option<R>, batch: Option<Batch>)
    ensures { RecordsIf R.records (option_to_list batch) recorder.old recorder.new }
{
    match batch {
        Some(batch) => hand_one(recorder, batch),
        None => {}
    }
}

fn hand_one<R: Recorder>(recorder: &mut Option<R>, batch: Batch)
    ensures { RecordsIf R.records (batch ∷ []) recorder.old recorder.new }
{
    match recorder {
        Some(recorder) => recorder.record(batch),
        None => {}
    }
}

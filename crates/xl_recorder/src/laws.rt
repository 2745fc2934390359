ghost use Rattle.xl_recorder.specs.Recorders.{IsRecorded, seen};

use xl_io::Sink;

/// The law of recorders, which has no code: of what a store hands on over a history, and what is left then, the whole
/// text of that history is written, or, by a recorder that has ended, a front of it.
pub fn law_of_recorders<S: Sink>()
    ensures { IsRecorded (seen S.held S.faults) }
{}

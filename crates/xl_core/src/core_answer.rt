use crate::{Refusal, Taken, TimerAnswer};

/// What a core answers to what happens at it.
#[derive(Clone, Copy, PartialEq, Eq)]
pub enum CoreAnswer {
    /// It was done, and there is nothing to say.
    Done,
    Refused(Refusal),
    /// This was taken of a frame.
    Took(Taken),
    /// This came of a timer.
    Beats(TimerAnswer),
    /// Whether it was told to stop.
    Told(bool),
}

// How many outcomes of a kind were told.
ghost use Rattle.std.specs.Prelude.{◌≡◌, ◌+◌, count_by, IfOk};
ghost use Rattle.xl_replay.specs.Headlines.{is_full};
ghost use Rattle.xl_gen.specs.Summaries.{with_outcomes, is_built, is_refused};

use xl_base::OutOfMemory;
use xl_world::Outcome;

/// How many outcomes were told by `refused` lines, by `built` lines and by `full` lines.
#[derive(Clone, Copy, PartialEq, Eq)]
pub struct Counts {
    pub refused: u64,
    pub built: u64,
    pub full: u64,
}

impl Counts {
    /// The counts with these outcomes. No computer counts so far that one of them comes to its end.
    pub fn with(&self, outcomes: &[Outcome]) -> Result<Counts, OutOfMemory>
        ensures { IfOk result (λ counts. counts ≡ with_outcomes self.now outcomes.now) }
    {
        Ok(Counts {
            refused: sum(self.refused, refused_in(outcomes))?,
            built: sum(self.built, built_in(outcomes))?,
            full: sum(self.full, full_in(outcomes))?,
        })
    }
}

fn sum(count: u64, more: usize) -> Result<u64, OutOfMemory>
    ensures { IfOk result (λ sum. sum ≡ count + more) }
{
    count.checked_add(more as u64).ok_or(OutOfMemory)
}

fn refused_in(outcomes: &[Outcome]) -> usize
    ensures { result ≡ count_by is_refused outcomes.now }
{
    outcomes
        .iter()
        .filter(|outcome| matches!(outcome, Outcome::Refused { .. }))
        .count()
}

fn built_in(outcomes: &[Outcome]) -> usize
    ensures { result ≡ count_by is_built outcomes.now }
{
    outcomes
        .iter()
        .filter(|outcome| matches!(outcome, Outcome::Built { .. }))
        .count()
}

fn full_in(outcomes: &[Outcome]) -> usize
    ensures { result ≡ count_by is_full outcomes.now }
{
    outcomes
        .iter()
        .filter(|outcome| matches!(outcome, Outcome::Full { .. }))
        .count()
}

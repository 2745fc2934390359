ghost use Rattle.std.specs.Prelude.{◌≡◌, ◌≢◌, ◌<◌, ◌^◌, ℕ, List};
ghost use Rattle.std.specs.declared.option.Option.{Option};
ghost use Rattle.xl_base.specs.declared.ids.LedgerId.{LedgerId};
ghost use Rattle.xl_io.specs.Sinks.{GrewByFront};
ghost use Rattle.xl_lines.specs.declared.machine.Verdict.TheVariants as Verdict;
ghost use Rattle.xl_sched.specs.declared.named.Named.{Named};
ghost use Rattle.xl_replay.specs.Headlines.{AddsReport, HasLine, IsRefusal, IsReport, names_of, outcomes_in, world_after};
ghost use Rattle.xl_replay.specs.Readings.{IsFullLine, Says, SaysOneOf};
ghost use Rattle.xl_replay.specs.Replays.{report_of};

/// A law: the headline of a report, whoever writes it. It has no code.
pub fn law_of_reports()
    // Unless a line is refused, the report is lines in which, if it says `forged 0`, no two `full` lines of a pair
    // with no `short` line share a sequence and stand for different ids, by the names that the schedule declares. The
    // last of them says whether the reports that the `full` lines tell agree, or names the first fork.
    ensures headline { (bytes : List ℕ) → (report_of bytes).verdict ≢ Verdict.Refused
        → IsReport (names_of bytes) (world_after bytes) (report_of bytes) }
    // A report that is refused ends with a `bad` line.
    ensures refusal { (bytes : List ℕ) → (report_of bytes).verdict ≡ Verdict.Refused → IsRefusal (report_of bytes).text }
    // Whatever front of a report is written, if the line `forged 0` was, so were all `full` and `short` lines of such a
    // report.
    ensures as_written { (bytes : List ℕ) (before after : Option (List ℕ))
        → GrewByFront before after (report_of bytes).text
        → AddsReport (names_of bytes) (world_after bytes) before after (report_of bytes) }
{}

/// A law: the `full` lines of a report are read in one way. Each says one of the outcomes of which the report's text
/// is made, however that text is parted into lines of outcomes. It has no code.
pub fn law_of_readings()
    ensures report { (bytes line : List ℕ) (report : IsReport (names_of bytes) (world_after bytes) (report_of bytes))
        → HasLine (report_of bytes).text line → IsFullLine line
        → SaysOneOf (names_of bytes) (outcomes_in report.spoken) line }
    // A line says one thing.
    ensures one { (names : List Named) (line : List ℕ) (i j seq other : ℕ) (a b : LedgerId)
        → Says names line i seq a → Says names line j other b
        → i < 2 ^ 64 → j < 2 ^ 64 → seq < 2 ^ 64 → other < 2 ^ 64 → (i ≡ j) × (seq ≡ other) × (a ≡ b) }
{}

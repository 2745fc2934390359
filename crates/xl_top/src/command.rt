ghost use Rattle.std.specs.Prelude.{◌≡◌, ◌≢◌, ◌⊎◌, ℕ, None, Some, IfSome};
ghost use Rattle.xl_base.specs.Faults.{Rose};
ghost use Rattle.xl_gen.specs.Summaries.{IsSummary};
ghost use Rattle.xl_lines.specs.declared.machine.Verdict.TheVariants.{Refused};
ghost use Rattle.xl_replay.specs.Headlines.{names_of, world_after, IsReport, IsRefusal};
ghost use Rattle.xl_replay.specs.Replays.{report_of};
ghost use Rattle.xl_top.specs.Commands.{asked_of, told_of, promise_by};
ghost use Rattle.xl_top.specs.Nodes.{EndsSo};
ghost use Rattle.xl_top.specs.Texts.{WritesText, HasCause};
ghost use Rattle.xl_texts.specs.Promises.{nothing};
ghost use Rattle.xl_texts.specs.Streams.{streams};
ghost use Rattle.xl_top.specs.Undone.{IsUndone};
ghost use Rattle.xl_workers.specs.Linking.{hub_seen};
ghost use Rattle.xl_validator.specs.Ends.{IsQuiet};
ghost use Rattle.xl_validator.specs.Following.{EndsWith, HasFailed, Writes};
ghost use Rattle.xl_validator.specs.Tellings.{IsPathRefused, Tells};
ghost use Rattle.xl_validator.specs.Validators.{Judges, between};
ghost use Rattle.xl_words.specs.Commands.{words_of};

use crate::running::write_text;
use std::fs::Files;
use std::sync::Wait;
use std::thread::Threads;
use xl_base::Status;
use xl_board::{Board, Boards};
use xl_io::{Keeper, Sink, Source};
use xl_links::{Clock, Gate, Hub};
use xl_validator::{Ended, Host, validator};
use xl_words::{Command, Telling, WordsFault};

/// The program: what the words of the command line ask is read from the input and written to the output.
///
/// The words begin with the program's name. They may ask for `replay`, `node`, `show`, `lists`, `merge`, `audit`,
/// `blame`, `flags`, `negative` or `gen`, for help, or for the version. Keeper, hub, boards, and the host's clock and gate
/// are those of `node`. The keeper comes back, and so does the journal of the node's store, if one was opened and isn't
/// written, the board on which it told how it is, if its settings name one, and what wrote the journal to a file, if they
/// name that.
pub fn top<
    W: Threads + Wait + Files + Sync,
    I: Source,
    O: Sink + Send,
    K: Keeper + Drop + Send,
    H: Hub,
    G: Gate + Sync,
    C: Clock + Sync,
    P: Boards,
>(
    host: &Host<'_, W, G, C>,
    words: &[String],
    input: &mut I,
    output: &mut O,
    keeper: K,
    hub: &mut H,
    boards: &mut P,
) -> Ended<K, P::D, P::J>
    // Words that ask nothing are refused, and only they, or memory runs out. Nothing is read or written then.
    ensures words { result.status ≡ Status.WordsRefused → asked_of (words_of words.now) ≡ None }
    ensures unasked { asked_of (words_of words.now) ≡ None
        → ((result.status ≡ Status.WordsRefused) ⊎ (result.status ≡ Status.OutOfMemory))
        × (input.new ≡ input.old) × (output.new ≡ output.old) }
    // Of the commands that write a text: what is written, and what the status says of it.
    ensures text { IfSome (told_of (words_of words.now)) (λ telling. WritesText telling
        (streams (I.left input.old) (I.faults input.old) (O.held output.old) (O.faults output.old))
        (streams (I.left input.new) (I.faults input.new) (O.held output.new) (O.faults output.new)) result.status) }
    // `gen`, help and the version read nothing.
    ensures unread { IfSome (told_of (words_of words.now)) (λ telling.
        (promise_by telling).reads ≡ nothing → input.new ≡ input.old) }
    // Unless a line is refused, the report of a replay is lines in which, if it says `forged 0`, no two `full` lines
    // of a pair with no `short` line share a sequence and stand for different ids, by the names that the schedule
    // declares. The last of them says whether the reports that the `full` lines tell agree, or names the first fork.
    ensures headline { IfSome (I.left input.old) (λ bytes.
        (report_of bytes).verdict ≢ Refused → IsReport (names_of bytes) (world_after bytes) (report_of bytes)) }
    // A report that is refused ends with a `bad` line.
    ensures refusal { IfSome (I.left input.old) (λ bytes.
        (report_of bytes).verdict ≡ Refused → IsRefusal (report_of bytes).text) }
    // The last line of each summary that `gen` makes says whether the reports of its schedule agree, and if no frame
    // was forged they do.
    ensures summaries { (rounds : ℕ) → IsSummary rounds }
    // Of `node`: its settings are judged at one moment that the clock may give. If they are refused no store is opened,
    // the keeper is asked nothing, and of their line a front is written. Others run a node that is opened at that moment,
    // or nothing is written and no save is asked. The journal of the node is handed back, or, if the settings ask for it
    // and the run is over, written behind the reports. Or the settings name a board or a file that can't be opened, which
    // refuses them. The status is the one of that, if no recorder met a fault. Else memory ran out before the clock was
    // asked, and nothing was done.
    ensures node { asked_of (words_of words.now) ≡ Some Command.Node
        → EndsWith (λ ended. Judges K.held K.saves K.faults K.load_gives K.save_gives
        (I.left input.old) (C.may_give host.now.clock.now) (H.gives hub.old)
        (between (hub_seen (H.faults hub.old) (H.asked hub.old)) (hub_seen (H.faults hub.new) (H.asked hub.new))
        (O.held output.old) (O.faults output.old) (O.held output.new) (O.faults output.new))
        output.old output.new keeper result.keeper ended result.journal
        ⊎ IsPathRefused (I.left input.old) (C.may_give host.now.clock.now)
        (Rose (P.faults boards.old) (P.faults boards.new))
        ((result.keeper ≡ keeper) × (hub.new ≡ hub.old))
        result.journal ended (O.held output.old) (O.held output.new)) result.recorder result.status
        ⊎ IsUndone result.status result.journal (input.new ≡ input.old) (output.new ≡ output.old)
        (result.keeper ≡ keeper) (hub.new ≡ hub.old) }
    // What it told on the board of its settings, which shows how its core was at places of its history.
    ensures told { asked_of (words_of words.now) ≡ Some Command.Node
        → Tells P.D.Board.show_gives P.D.Board.stands (P.stands boards.old)
        (Rose (P.faults boards.old) (P.faults boards.new)) (boards.new ≡ boards.old)
        (hub_seen (H.faults hub.old) (H.asked hub.old)) (hub_seen (H.faults hub.new) (H.asked hub.new))
        (I.left input.old) (C.may_give host.now.clock.now) result.journal result.status result.bulletin
        ⊎ ((result.status ≡ Status.OutOfMemory) × (result.bulletin ≡ None) × (boards.new ≡ boards.old)) }
    // What stands in the file that its settings name for the journal: the text of that, or a front of it.
    ensures recorded { asked_of (words_of words.now) ≡ Some Command.Node
        → Writes P.J.Sink.held P.J.Sink.faults
        (I.left input.old) (C.may_give host.now.clock.now) result.journal result.recorder
        ⊎ ((result.status ≡ Status.OutOfMemory) × (result.recorder ≡ None) × (boards.new ≡ boards.old)) }
    // Its status says how its run ended.
    ensures ends { asked_of (words_of words.now) ≡ Some Command.Node
        → EndsSo (I.left input.old) (C.may_give host.now.clock.now)
        (IsQuiet (I.faults input.old) (I.faults input.new) × IsQuiet (O.faults output.old) (O.faults output.new)
        × IsQuiet (K.faults keeper) (K.faults result.keeper) × IsQuiet (H.faults hub.old) (H.faults hub.new)
        × IsQuiet (P.faults boards.old) (P.faults boards.new) × (HasFailed result.recorder → ⊥))
        result.status result.journal }
    // A journal is that of a node.
    ensures node_ran { IfSome result.journal (λ _. asked_of (words_of words.now) ≡ Some Command.Node) }
    // Every other command leaves keeper and hub, and opens no board and no file.
    ensures others { asked_of (words_of words.now) ≢ Some Command.Node
        → (result.keeper ≡ keeper) × (hub.new ≡ hub.old) × (result.journal ≡ None)
        × (boards.new ≡ boards.old) × (result.bulletin ≡ None) × (result.recorder ≡ None) }
    // A status that names a fault is answered only if a call of that kind failed.
    ensures cause { HasCause result.status (Rose (I.faults input.old) (I.faults input.new))
        (Rose (O.faults output.old) (O.faults output.new) ⊎ HasFailed result.recorder)
        (Rose (K.faults keeper) (K.faults result.keeper))
        (Rose (H.faults hub.old) (H.faults hub.new)) }
    ensures store { result.status ≡ Status.StoreFull → asked_of (words_of words.now) ≡ Some Command.Node }
{
    match Command::of(host.alloc, words) {
        Ok(Command::Tell(telling)) => {
            Ended::unopened(write_text(host.alloc, telling, input, output), keeper)
        }
        Ok(Command::Node) => validator(host, input, output, keeper, hub, boards),
        Err(WordsFault::Refused) => Ended::unopened(Status::WordsRefused, keeper),
        Err(WordsFault::Memory) => Ended::unopened(Status::OutOfMemory, keeper),
    }
}

ghost use Rattle.std.specs.Prelude.{◌≡◌, ◌+◌, ◌≤◌, IfOk, Some, None};
ghost use Rattle.std.specs.String.{string_bytes};
ghost use Rattle.xl_base.specs.Moments.{greatest_millis};
ghost use Rattle.xl_status.specs.Hearings.{after_status};
ghost use Rattle.xl_status.specs.Texts.{status_text, unopened_text};
ghost use Rattle.xl_heartbeat.specs.Bulletins.{is_due as is_due_of, NotesIf, Shows, Tells, TellsEnd, TellsUnopened};

use std::alloc::Global;
use xl_base::{Millis, OutOfMemory, Status};
use xl_board::Board;
use xl_status::{End, Hearing, Look, Profile, push_status, push_unopened};
use xl_store::NodeStatus;

/// The milliseconds from text to text.
const EVERY: Millis = 10_000;

/// Where a heartbeat tells how its node is, and what it tells beside what the core does.
#[derive(Drop)]
pub struct Bulletin<D> {
    pub alloc: Global,
    pub board: D,
    pub profile: Profile,
    pub hearing: Hearing,
    /// The moment from which on the next text is due.
    pub due: Millis,
    /// What became of the last look at a text of rolls, if there was one.
    pub look: Option<Look>,
}

impl<D: Board> Bulletin<D> {
    /// Whether a text is due at a moment. It is too if its moment lies further ahead than texts lie apart, since the
    /// clock was set back then.
    pub(crate) fn is_due(&self, now: Millis) -> bool
        requires moment { now ≤ greatest_millis }
        ensures { result ≡ is_due_of self.now.due now }
    {
        self.due <= now || now + EVERY < self.due
    }

    /// Tells how the node is. If there is no memory for the text, or if it can't be shown, the next one comes as ever.
    pub(crate) fn tell(&mut self, status: &NodeStatus, now: Millis)
        requires moment { now ≤ greatest_millis }
        ensures { Tells D.show_gives status.now now self.old self.new }
    {
        self.show(status, None);
        self.due = now + EVERY;
    }

    /// Tells how the node was at its end, and how that came, once its core is at rest.
    pub fn tell_end(&mut self, status: &NodeStatus, ended: End)
        ensures { TellsEnd D.show_gives status.now ended self.old self.new }
    {
        self.show(status, Some(ended));
    }

    /// Shows the text of a node that runs, or that has ended so, if there is memory for it.
    fn show(&mut self, status: &NodeStatus, ended: Option<End>)
        ensures profile { self.new.profile ≡ self.old.profile }
        ensures hearing { self.new.hearing ≡ after_status self.old.hearing status.now }
        ensures due { self.new.due ≡ self.old.due }
        ensures look { self.new.look ≡ self.old.look }
        ensures board { Shows D.show_gives
            (status_text self.old.profile status.now self.new.hearing self.old.look ended) self.old.board self.new.board }
    {
        self.hearing.note(status);
        let (profile, hearing) = (&self.profile, &self.hearing);
        if let Ok(text) = text_of(self.alloc, profile, hearing, status, self.look, ended) {
            let _ = self.board.show(text.as_bytes());
        }
    }

    /// Tells how a node ended whose core was never opened, which it should have been when the first text was due.
    pub fn tell_unopened(&mut self, ended: Status)
        ensures { TellsUnopened D.show_gives ended self.old self.new }
    {
        if let Ok(text) = unopened_text_of(self.alloc, &self.profile, self.due, ended) {
            let _ = self.board.show(text.as_bytes());
        }
    }
}

/// Keeps what became of a look, if there was one, for the texts that follow.
pub(crate) fn note_look<D>(bulletin: &mut Option<Bulletin<D>>, look: Option<Look>)
    ensures { NotesIf look bulletin.old bulletin.new }
{
    match look {
        Some(look) => note(bulletin, look),
        None => {}
    }
}

fn note<D>(bulletin: &mut Option<Bulletin<D>>, look: Look)
    ensures { NotesIf (Some look) bulletin.old bulletin.new }
{
    match bulletin {
        Some(bulletin) => bulletin.look = Some(look),
        None => {}
    }
}

/// The text of a node that runs, or that has ended so.
fn text_of(
    alloc: Global,
    profile: &Profile,
    hearing: &Hearing,
    status: &NodeStatus,
    look: Option<Look>,
    ended: Option<End>,
) -> Result<String, OutOfMemory>
    ensures { IfOk result (λ text. string_bytes text ≡ status_text profile.now status.now hearing.now look ended) }
{
    let mut text = String::new(alloc);
    push_status(alloc, &mut text, profile, status, hearing, look, ended)?;
    Ok(text)
}

/// The text of a node that ended so before its core was opened.
fn unopened_text_of(
    alloc: Global,
    profile: &Profile,
    moment: Millis,
    ended: Status,
) -> Result<String, OutOfMemory>
    ensures { IfOk result (λ text. string_bytes text ≡ unopened_text profile.now moment ended) }
{
    let mut text = String::new(alloc);
    push_unopened(&mut text, profile, moment, ended)?;
    Ok(text)
}

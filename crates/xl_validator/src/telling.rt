// What tells how a node is.
ghost use Rattle.std.specs.Prelude.{◌≡◌, ◌≤◌, Some, None, IfErr, IfOk, IsSome, MatchResult, OnErr};
ghost use Rattle.xl_base.specs.Faults.{Rose};
ghost use Rattle.xl_store.specs.Statuses.{status_of};
ghost use Rattle.xl_validator.specs.Tellings.{IsOpened, TellsOfEnd, profile_of};

use std::alloc::Global;
use xl_base::Millis;
use xl_board::{Board, Boards, NotOpened};
use xl_heartbeat::Bulletin;
use xl_settings::Settings;
use xl_status::{End, Hearing, Profile};
use xl_store::{NodeStatus, Spared};
use xl_trie::Trie;
use xl_workers::Ran;

/// Opens the board of the settings, if they name one.
pub(crate) fn bulletin_of<P: Boards>(
    alloc: Global,
    boards: &mut P,
    settings: &Settings,
    now: Millis,
) -> Result<Option<Bulletin<P::D>>, NotOpened>
    ensures opened { IfOk result (λ bulletin.
        IsOpened (P.D.Board.stands) (P.stands boards.old) settings.now now bulletin) }
    ensures unasked { settings.now.status ≡ None → boards.new ≡ boards.old }
    ensures asked { OnErr result (IsSome settings.now.status) }
    ensures later { P.faults boards.old ≤ P.faults boards.new }
    ensures failed { IfErr result (λ why. why ≡ NotOpened.Failed → Rose (P.faults boards.old) (P.faults boards.new)) }
{
    let Some(path) = &settings.status else {
        return Ok(None);
    };
    match boards.open(path.as_str()) {
        Ok(board) => Ok(Some(Bulletin {
            alloc,
            board,
            profile: profile_of(settings),
            hearing: Hearing::new(now),
            due: now,
            look: None,
        })),
        Err(why) => Err(why),
    }
}

/// What a node is run with by these settings.
fn profile_of(settings: &Settings) -> Profile
    ensures { result ≡ profile_of settings.now }
{
    Profile {
        me: settings.me,
        validating: settings.validating,
        speak: settings.speak,
        turns: settings.turns,
        heartbeat_ms: settings.heartbeat_ms,
        run_ms: settings.run_ms,
    }
}

/// How the node of a run was at its end, if a store was opened.
pub(crate) fn status_left<K>(ran: &Result<Ran<Trie, K>, Spared<Trie, K>>) -> Option<NodeStatus>
    ensures { MatchResult ran.now (λ r. result ≡ Some (status_of r.closed.core)) (λ _. result ≡ None) }
{
    match ran {
        Ok(ran) => Some(NodeStatus::of(&ran.closed.core)),
        Err(_) => None,
    }
}

/// Tells on the bulletin, if there is one, that a node ended so, and how it was if its store was opened.
pub(crate) fn tell_end<D: Board>(
    bulletin: &mut Option<Bulletin<D>>,
    last: &Option<NodeStatus>,
    ended: End,
)
    ensures { TellsOfEnd D.show_gives last.now ended bulletin.old bulletin.new }
{
    match bulletin {
        Some(bulletin) => tell_on(bulletin, last, ended),
        None => {}
    }
}

fn tell_on<D: Board>(bulletin: &mut Bulletin<D>, last: &Option<NodeStatus>, ended: End)
    ensures { TellsOfEnd D.show_gives last.now ended (Some bulletin.old) (Some bulletin.new) }
{
    match last {
        Some(status) => bulletin.tell_end(status, ended),
        None => bulletin.tell_unopened(ended.status),
    }
}

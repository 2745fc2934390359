//! What a web page calls: a command, the bytes that it reads, and the room that it writes to.
//!
//! It stands on xl_page. Its one contract is that of each command there, by the program's exit statuses.
#![tactic(auto)]

ghost use Rattle.std.specs.Prelude.{◌≡◌, min};
ghost use Rattle.xl_base.specs.Statuses.{code_of};
ghost use Rattle.xl_gen.specs.Sizes.{most_rounds};
ghost use Rattle.xl_gen.specs.Summaries.{summary};
ghost use Rattle.xl_merge.specs.Merging.{merge_of};
ghost use Rattle.xl_negative.specs.Writing.{negative_of};
ghost use Rattle.xl_pairs.specs.Comparing.{lists_of};
ghost use Rattle.xl_replay.specs.Replays.{report_of};
ghost use Rattle.xl_show.specs.Shown.{shown_of};
ghost use Rattle.xl_tell.specs.Tellings.{telling_of};
ghost use Rattle.xl_voting.specs.Voting.{flags_of};
ghost use Rattle.xl_web.specs.Answers.{IsAnswer};

use std::alloc::Global;
use xl_merge::Merge;
use xl_negative::Negative;
use xl_page::Page;
use xl_pairs::Lists;
use xl_replay::Replay;
use xl_show::Show;
use xl_tell::Tell;
use xl_voting::Flags;

/// Tells the host how long the text is, and answers the program's exit status.
fn answer(page: Page, length: &mut usize) -> u8
    ensures code { result ≡ code_of page.status }
    ensures length { length.new ≡ page.length }
{
    *length = page.length;
    page.status.code()
}

/// `xl flags`: the text stands at the front of the room, if it has at most the room's length.
#[tactic(auto, using(crate::proofs::Answers::answers))]
#[unsafe(no_mangle)]
pub extern "C" fn xl_flags(alloc: Global, input: &[u8], room: &mut [u8], length: &mut usize) -> u8
    ensures { IsAnswer (flags_of input.now) result length.new room.new }
{
    answer(xl_page::told::<Flags>(alloc, input, room), length)
}

/// `xl gen` of this many rounds, or of the most: the text stands at the front of the room, if it has at most the
/// room's length.
#[tactic(auto, using(crate::proofs::Answers::answers))]
#[unsafe(no_mangle)]
pub extern "C" fn xl_gen(alloc: Global, rounds: u32, room: &mut [u8], length: &mut usize) -> u8
    ensures { IsAnswer (summary (min rounds most_rounds)) result length.new room.new }
{
    answer(xl_page::made(alloc, rounds, room), length)
}

/// `xl lists`: the text stands at the front of the room, if it has at most the room's length.
#[tactic(auto, using(crate::proofs::Answers::answers))]
#[unsafe(no_mangle)]
pub extern "C" fn xl_lists(alloc: Global, input: &[u8], room: &mut [u8], length: &mut usize) -> u8
    ensures { IsAnswer (lists_of input.now) result length.new room.new }
{
    answer(xl_page::told::<Lists>(alloc, input, room), length)
}

/// `xl merge`: the text stands at the front of the room, if it has at most the room's length.
#[tactic(auto, using(crate::proofs::Answers::answers))]
#[unsafe(no_mangle)]
pub extern "C" fn xl_merge(alloc: Global, input: &[u8], room: &mut [u8], length: &mut usize) -> u8
    ensures { IsAnswer (merge_of input.now) result length.new room.new }
{
    answer(xl_page::told::<Merge>(alloc, input, room), length)
}

/// `xl negative`: the text stands at the front of the room, if it has at most the room's length.
#[tactic(auto, using(crate::proofs::Answers::answers))]
#[unsafe(no_mangle)]
pub extern "C" fn xl_negative(
    alloc: Global,
    input: &[u8],
    room: &mut [u8],
    length: &mut usize,
) -> u8
    ensures { IsAnswer (negative_of input.now) result length.new room.new }
{
    answer(xl_page::told::<Negative>(alloc, input, room), length)
}

/// `xl replay`: the text stands at the front of the room, if it has at most the room's length.
#[tactic(auto, using(crate::proofs::Answers::answers))]
#[unsafe(no_mangle)]
pub extern "C" fn xl_replay(alloc: Global, input: &[u8], room: &mut [u8], length: &mut usize) -> u8
    ensures { IsAnswer (report_of input.now) result length.new room.new }
{
    answer(xl_page::told::<Replay>(alloc, input, room), length)
}

/// `xl show`: the text stands at the front of the room, if it has at most the room's length.
#[tactic(auto, using(crate::proofs::Answers::answers))]
#[unsafe(no_mangle)]
pub extern "C" fn xl_show(alloc: Global, input: &[u8], room: &mut [u8], length: &mut usize) -> u8
    ensures { IsAnswer (shown_of input.now) result length.new room.new }
{
    answer(xl_page::told::<Show>(alloc, input, room), length)
}

/// `xl tell`: the text stands at the front of the room, if it has at most the room's length.
#[tactic(auto, using(crate::proofs::Answers::answers))]
#[unsafe(no_mangle)]
pub extern "C" fn xl_tell(alloc: Global, input: &[u8], room: &mut [u8], length: &mut usize) -> u8
    ensures { IsAnswer (telling_of input.now) result length.new room.new }
{
    answer(xl_page::told::<Tell>(alloc, input, room), length)
}

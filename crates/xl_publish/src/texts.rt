// A text of rolls, taken line by line.
ghost use Rattle.std.specs.Prelude.{◌≡◌, ◌≤◌, Some, length, option_map};
ghost use Rattle.std.specs.List.{position};
ghost use Rattle.xl_publish.specs.Texts.{after_bytes, after_line, after_text, first_refused, is_newline, line_refusal, lines_of, most_text, refused_line, roll_refusal};

use crate::line_refusal::{LineRefusal, RefusedLine};
use crate::reading::stranger_in;
use crate::roll_bytes::RollBytes;
use crate::{Publishers, RollMembers};

/// The longest text that is looked at has so many bytes.
pub const MOST_TEXT: usize = 32_768;

impl Publishers {
    /// Takes the rolls of a text, each in a line as hexadecimal digits of either case, and answers the first line that
    /// is refused. A line that is refused changes nothing, and an empty one is passed over.
    ///
    /// A line is refused if it isn't the digits of a roll, as `take` refuses that, or if the roll names a member that
    /// isn't one of these.
    pub fn take_text(&mut self, members: &RollMembers, text: &[u8]) -> Option<RefusedLine>
        requires short { length text.now ≤ most_text }
        ensures taken { self.new ≡ after_text members.now self.old text.now }
        ensures refused { result ≡ first_refused members.now self.old.keys 1 (lines_of text.now) }
    {
        let mut refused = None;
        let mut number = 1;
        let mut rest = text;
        while let Some(end) = newline_in(rest) {
            let cause = self.take_line(members, &rest[..end]);
            refused = refused.or(refused_at(number, cause));
            number += 1;
            rest = &rest[end + 1..];
        }
        let cause = self.take_line(members, rest);
        refused.or(refused_at(number, cause))
    }
    /// Takes the roll of a line, unless it is refused.
    fn take_line(&mut self, members: &RollMembers, line: &[u8]) -> Option<LineRefusal>
        ensures taken { self.new ≡ after_line members.now self.old line.now }
        ensures keys { self.new.keys ≡ self.old.keys }
        ensures refused { result ≡ line_refusal members.now self.old.keys line.now }
    {
        if line.is_empty() {
            return None;
        }
        match RollBytes::of_digits(line) {
            Some(roll) => self.take_roll(members, roll.as_slice()),
            None => Some(LineRefusal::Digits),
        }
    }

    /// Takes a roll, unless it is refused or names a stranger.
    fn take_roll(&mut self, members: &RollMembers, roll: &[u8]) -> Option<LineRefusal>
        ensures taken { self.new ≡ after_bytes members.now self.old (Some roll.now) }
        ensures keys { self.new.keys ≡ self.old.keys }
        ensures refused { result ≡ roll_refusal members.now self.old.keys roll.now }
    {
        if let Some(refusal) = self.refusal(roll) {
            return Some(LineRefusal::Roll(refusal));
        }
        if let Some(member) = stranger_in(roll, members) {
            return Some(LineRefusal::Stranger(member));
        }
        let _ = self.keep(roll);
        None
    }
}

/// The line of a number, if it is refused.
fn refused_at(number: u32, cause: Option<LineRefusal>) -> Option<RefusedLine>
    ensures { result ≡ option_map (refused_line number) cause }
{
    match cause {
        Some(cause) => Some(RefusedLine { number, cause }),
        None => None,
    }
}

/// Where the first newline stands.
fn newline_in(text: &[u8]) -> Option<usize>
    ensures { result ≡ position is_newline text.now }
{
    text.iter().position(|byte| *byte == b'\n')
}

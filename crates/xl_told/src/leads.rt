// The first words of an event's line.
ghost use Rattle.std.specs.Prelude.{◌≡◌, ◌++◌, IfSome, OnOk};
ghost use Rattle.std.specs.String.{string_bytes};
ghost use Rattle.xl_told.specs.Events.{lead_text};

use crate::words::push_numbered;
use std::alloc::Global;
use std::marker::Model;
use xl_base::{Millis, OutOfMemory};

/// The first words of an event's line, once they are written: the parts of one event share them.
#[derive(Drop)]
pub struct Lead {
    line: u64,
    at: Millis,
    text: String,
}

impl Model for Lead {
    ghost use Rattle.std.specs.Prelude.{◌≡◌};
    ghost use Rattle.std.specs.String.{string_bytes};
    ghost use Rattle.xl_told.specs.Events.{lead_text};

    ghost Value = { Unit {0} };

    ghost view = { λ _. tt };

    ghost invariant = { λ l. string_bytes l.text ≡ lead_text l.line l.at };
}

fn write_lead(text: &mut String, line: u64, at: Millis) -> Result<(), OutOfMemory>
    ensures { OnOk result (string_bytes text.new ≡ string_bytes text.old ++ lead_text line at) }
{
    push_numbered(text, "event ", line)?;
    push_numbered(text, " ", at)?;
    text.push(' ')?;
    Ok(())
}

impl Lead {
    /// Those of an event that stands in this line, at this moment. Refused only when memory runs out.
    pub fn of(alloc: Global, line: u64, at: Millis) -> Result<Lead, OutOfMemory> {
        let mut text = String::new(alloc);
        write_lead(&mut text, line, at)?;
        Ok(Lead { line, at, text })
    }

    fn known(&self, line: u64, at: Millis) -> Option<&str>
        ensures { IfSome result (λ text. text.now ≡ lead_text line at) }
    {
        if self.line == line && self.at == at {
            Some(self.text.as_str())
        } else {
            None
        }
    }

    /// Adds them to a text.
    pub(crate) fn push(&self, text: &mut String, line: u64, at: Millis) -> Result<(), OutOfMemory>
        ensures { OnOk result (string_bytes text.new ≡ string_bytes text.old ++ lead_text line at) }
    {
        match self.known(line, at) {
            Some(lead) => Ok(text.push_str(lead)?),
            None => write_lead(text, line, at),
        }
    }
}

ghost use Rattle.std.specs.Prelude.{◌≡◌, ◌≤◌, ◌++◌, length, IfOk, IfSome, IfErr, IsErrOf, OnOk};
ghost use Rattle.std.specs.Io.KnownBytes.{IsAtEnd, prepend_known};
ghost use Rattle.xl_base.specs.Faults.{Rose};
ghost use Rattle.xl_base.specs.Moments.{greatest_millis};
ghost use Rattle.xl_settings.specs.Answers.{GivenBytes, IsReadOut, IsNoRefusal};
ghost use Rattle.xl_settings.specs.Runnable.{AreRunnable};
ghost use Rattle.xl_settings.specs.Settings.{settings_of};
ghost use Rattle.xl_settings.specs.Limits.{most_bytes};

use crate::limits::MOST_BYTES;
use crate::{Settings, SettingsFault, read_settings};
use std::alloc::Global;
use xl_base::{Millis, OutOfMemory};
use xl_io::{Piece, Source};

/// The bytes that a read is asked for.
const ROOM: usize = 8192;

/// Reads the settings that the source holds, as `read_settings` does those of its bytes.
///
/// The source is read to its end, or until more bytes came than settings may have; those are refused by their length. A
/// failed read ends it with `Read`.
pub fn settings_from<I: Source>(
    alloc: Global,
    input: &mut I,
    now: Millis,
) -> Result<Settings, SettingsFault>
    requires { now ≤ greatest_millis }
    ensures settings { IfSome (I.left input.old) (λ bytes. GivenBytes result (settings_of bytes now)) }
    // A node can be opened with them.
    ensures runnable { IfOk result AreRunnable }
    ensures to_end { IsReadOut result (I.left input.new) }
    ensures later { I.faults input.old ≤ I.faults input.new }
    ensures read { IsErrOf result SettingsFault.Read → Rose (I.faults input.old) (I.faults input.new) }
{
    let bytes = read_out(alloc, input)?;
    read_settings(alloc, &bytes, now)
}

/// The bytes of the source, to its end or beyond the most that settings may have.
fn read_out<I: Source>(alloc: Global, input: &mut I) -> Result<Vec<u8>, SettingsFault>
    ensures came { IfOk result (λ bytes. I.left input.old ≡ prepend_known bytes.items (I.left input.new)) }
    ensures to_end { IfOk result (λ bytes. length bytes.items ≤ most_bytes → IsAtEnd (I.left input.new)) }
    ensures fault { IfErr result IsNoRefusal }
    ensures later { I.faults input.old ≤ I.faults input.new }
    ensures read { IsErrOf result SettingsFault.Read → Rose (I.faults input.old) (I.faults input.new) }
{
    let mut bytes = Vec::new(alloc);
    let mut room = [0; ROOM];
    while bytes.len() <= MOST_BYTES {
        match input.read(&mut room) {
            Piece::Got(count) => add(&mut bytes, &room[..count])?,
            Piece::End => return Ok(bytes),
            Piece::Failed => return Err(SettingsFault::Read),
        }
    }
    Ok(bytes)
}

/// Adds bytes at the end.
fn add(bytes: &mut Vec<u8>, more: &[u8]) -> Result<(), OutOfMemory>
    ensures { OnOk result (bytes.new.items ≡ bytes.old.items ++ more.now) }
{
    bytes.extend_from_slice(more)?;
    Ok(())
}

ghost use Rattle.std.specs.Prelude.{◌≡◌, ◌+◌, ◌≤◌, ◌++◌, length, take, OnOk, OnErr};
ghost use Rattle.hex.specs.Hex.{encode_lower};
ghost use Rattle.xl_heartbeat.specs.Lines.{report_line, report_lines};
ghost use Rattle.xl_heartbeat.specs.Outputs.{output, Adds, AddsLess};

use xl_base::put;
use xl_core::Report;
use xl_io::{Failed, Sink, write_all};

/// The length of a line whose sequence has ten digits.
const LONGEST_LINE: usize = 81;

/// Writes a line for each report. It takes no memory: so no report that was taken goes without a line for lack of it.
pub(crate) fn write_reports<O: Sink>(sink: &mut O, reports: &[Report]) -> Result<(), Failed>
    ensures adds { OnOk result (Adds (report_lines reports.now)
        (output (O.held sink.old) (O.faults sink.old)) (output (O.held sink.new) (O.faults sink.new))) }
    ensures less { OnErr result (AddsLess (report_lines reports.now)
        (output (O.held sink.old) (O.faults sink.old)) (output (O.held sink.new) (O.faults sink.new))) }
{
    for report in reports {
        match write_report(sink, report) {
            Ok(()) => {}
            Err(failed) => return Err(failed),
        }
    }
    Ok(())
}

fn write_report<O: Sink>(sink: &mut O, report: &Report) -> Result<(), Failed>
    ensures adds { OnOk result (Adds (report_line report.now)
        (output (O.held sink.old) (O.faults sink.old)) (output (O.held sink.new) (O.faults sink.new))) }
    ensures less { OnErr result (AddsLess (report_line report.now)
        (output (O.held sink.old) (O.faults sink.old)) (output (O.held sink.new) (O.faults sink.new))) }
{
    let mut room = [0; LONGEST_LINE];
    let length = put_line(&mut room, report);
    write_all(sink, &room[..length])
}

/// Puts the line at the room's front, and answers how long it is.
fn put_line(room: &mut [u8], report: &Report) -> usize
    requires room { LONGEST_LINE ≤ length room.old }
    ensures fits { result ≤ length room.new }
    ensures line { take result room.new ≡ report_line report.now }
{
    let mut seq = itoa::Buffer::new();
    let at = append(room, 0, b"full ");
    let at = append(room, at, seq.format(report.seq).as_bytes());
    let at = append(room, at, b" ");
    let at = append(room, at, &digits_of(&report.id.0));
    append(room, at, b"\n")
}

/// An id as 64 lower-case digits.
fn digits_of(id: &[u8; 32]) -> [u8; 64]
    ensures { result ≡ encode_lower id.now }
{
    let mut digits = [0; 64];
    let _ = hex::encode_to_slice(id.as_slice(), &mut digits);
    digits
}

/// Puts bytes behind the first of the room, and answers where they end.
fn append(room: &mut [u8], at: usize, bytes: &[u8]) -> usize
    requires room { at + length bytes.now ≤ length room.old }
    ensures end { result ≡ at + length bytes.now }
    ensures text { take result room.new ≡ take at room.old ++ bytes.now }
    ensures room { length room.new ≡ length room.old }
{
    put(room, at, bytes);
    at + bytes.len()
}

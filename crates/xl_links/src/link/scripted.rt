ghost use Rattle.std.specs.Prelude.{◌≡◌, ◌<◌, ℕ, [], Some, length, min, IfOk, option_map};
ghost use Rattle.xl_links.specs.declared.link.LinkRead.TheVariants as read;
ghost use Rattle.xl_links.specs.Links.{Reads};
ghost use Rattle.xl_links.specs.Memory.{counted_wire, course_of, course_over, piece_of, plain_bytes, plain_left, plain_piece};

use crate::link::plain::PlainLink;
use crate::link::{Judgement, Link, LinkRead, Opening};
use crate::script::{Course, LinkScript};
use crate::told::Told;
use std::alloc::Global;
use xl_base::OutOfMemory;
use xl_io::Wrote;

/// How many calls of each kind there were.
#[derive(Clone, Copy, PartialEq, Eq)]
struct Calls {
    openings: u64,
    reads: u64,
    writes: u64,
    questions: u64,
}

/// What a read answered, and how many bytes were given before.
#[derive(Clone, Copy, PartialEq, Eq)]
struct Given {
    answer: LinkRead,
    from: usize,
}

/// A link in memory, and the calls that are to fail, to find no peer, to be idle, to end its connection, or to say that
/// its peer may not be spoken to. It tells its openings, its reads and what it is asked while there is room for them. A
/// write also fails if memory runs out.
#[derive(Drop)]
pub struct MemLink {
    source: PlainLink,
    taken: Vec<u8>,
    script: LinkScript,
    openings: Told<Opening>,
    readings: Told<Given>,
    permissions: Told<bool>,
    calls: Calls,
    faults: u64,
}

impl MemLink {
    ghost use Rattle.xl_links.specs.Memory.{bytes_taken, calls_of, link_piece, list_of_openings, list_of_permissions, list_of_readings};
    ghost use Rattle.xl_links.specs.Memory.{no_calls, script_of, wire_of};
    ghost use Rattle.xl_links.specs.Tellings.{nothing_told};

    /// A link with these bytes to give, and with room to tell so many openings, as many reads and as many questions. Reads give and writes
    /// take at most `piece` bytes, 0 being read as 1. If no byte is left, a read that would give some ends the connection.
    pub fn new(
        alloc: Global,
        bytes: Vec<u8>,
        piece: usize,
        script: LinkScript,
        room: usize,
    ) -> Result<Self, OutOfMemory>
        ensures left { IfOk result (λ link. (wire_of link).left ≡ Some bytes.items) }
        ensures piece { IfOk result (λ link. link_piece link ≡ piece) }
        ensures taken { IfOk result (λ link. bytes_taken link ≡ []) }
        ensures openings { IfOk result (λ link. list_of_openings link ≡ nothing_told room) }
        ensures readings { IfOk result (λ link. list_of_readings link ≡ nothing_told room) }
        ensures permissions { IfOk result (λ link. list_of_permissions link ≡ nothing_told room) }
        ensures faults { IfOk result (λ link. (wire_of link).faults ≡ 0) }
        ensures script { IfOk result (λ link. script_of link ≡ script) }
        ensures calls { IfOk result (λ link. calls_of link ≡ no_calls) }
    {
        Ok(MemLink {
            source: PlainLink::new(bytes, piece),
            taken: Vec::new(alloc),
            script,
            openings: Told::with_room(alloc, room)?,
            readings: Told::with_room(alloc, room)?,
            permissions: Told::with_room(alloc, room)?,
            calls: Calls {
                openings: 0,
                reads: 0,
                writes: 0,
                questions: 0,
            },
            faults: 0,
        })
    }

    /// The bytes that were taken.
    pub fn taken(&self) -> &[u8]
        ensures { result.now ≡ bytes_taken self.now }
    {
        &self.taken
    }

    /// What all openings answered, if they are told.
    pub fn openings(&self) -> Option<&[Opening]>
        ensures { option_map (λ answers. answers.now) result ≡ (wire_of self.now).openings }
    {
        self.openings.items()
    }

    /// How often a call has failed.
    pub fn faults(&self) -> u64
        ensures { result ≡ (wire_of self.now).faults }
    {
        self.faults
    }
}

impl Link for MemLink {
    ghost use Rattle.std.specs.Prelude.{IsTrue};
    ghost use Rattle.xl_io.specs.declared.sink.Wrote.TheVariants as wrote;
    ghost use Rattle.xl_links.specs.Links.{Opens, Permits, Writes, reading_in};
    ghost use Rattle.xl_links.specs.Memory.{
      bytes_left,
      calls_of,
      link_piece,
      list_of_openings,
      list_of_permissions,
      list_of_readings,
      next_course,
      next_opening,
      next_permission,
      next_write_fails,
      script_of,
      wire_of,
      with_opening_call,
      with_question,
      with_read_call,
      with_write_call,
    };
    ghost use Rattle.xl_links.specs.Tellings.{with_told};

    ghost shows = { wire_of };

    fn open(&mut self) -> Opening
        ensures opens { Opens (wire_of self.old) result (wire_of self.new) }

        // What the script makes of it.
        ensures answer { result ≡ next_opening self.old }
        ensures list { list_of_openings self.new ≡ with_told (list_of_openings self.old) result }
        ensures readings { list_of_readings self.new ≡ list_of_readings self.old }
        ensures permissions { list_of_permissions self.new ≡ list_of_permissions self.old }
        ensures calls { calls_of self.new ≡ with_opening_call (calls_of self.old) }
        ensures script { script_of self.new ≡ script_of self.old }
        ensures kept { link_piece self.new ≡ link_piece self.old }
    {
        self.calls.openings = self.calls.openings.saturating_add(1);
        let answer = self.script.opening(self.calls.openings);
        if answer == Opening::Failed {
            self.faults = self.faults.saturating_add(1);
        }
        self.openings.push(answer);
        answer
    }

    fn read(&mut self, room: &mut [u8]) -> LinkRead
        ensures same { length room.new ≡ length room.old }
        ensures read { Reads (wire_of self.old) result room.new (wire_of self.new) }

        // What the script makes of it.
        ensures course { 0 < length room.old → course_of result ≡ next_course self.old }
        ensures piece { (n : ℕ) → result ≡ read.Got n
            → n ≡ piece_of (link_piece self.old) (min (length (bytes_left self.old)) (length room.old)) }
        ensures list { list_of_openings self.new ≡ list_of_openings self.old }
        ensures readings { list_of_readings self.new ≡ with_told (list_of_readings self.old) (reading_in room.new result) }
        ensures permissions { list_of_permissions self.new ≡ list_of_permissions self.old }
        ensures calls { calls_of self.new ≡ with_read_call (calls_of self.old) }
        ensures script { script_of self.new ≡ script_of self.old }
        ensures kept { link_piece self.new ≡ link_piece self.old }
    {
        self.calls.reads = self.calls.reads.saturating_add(1);
        let course = self.script.course(self.calls.reads);
        let from = self.source.given();
        let answer = read_by(course, &mut self.source, &mut self.faults, room);
        self.readings.push(Given { answer, from });
        answer
    }

    fn write(&mut self, piece: &[u8]) -> Wrote
        ensures writes { Writes (wire_of self.old) result piece.now (wire_of self.new) }

        // What the script makes of it.
        ensures fails { IsTrue (next_write_fails self.old) → result ≡ wrote.Failed }
        ensures piece { (n : ℕ) → result ≡ wrote.Took n → n ≡ piece_of (link_piece self.old) (length piece.now) }
        ensures list { list_of_openings self.new ≡ list_of_openings self.old }
        ensures readings { list_of_readings self.new ≡ list_of_readings self.old }
        ensures permissions { list_of_permissions self.new ≡ list_of_permissions self.old }
        ensures calls { calls_of self.new ≡ with_write_call (calls_of self.old) }
        ensures script { script_of self.new ≡ script_of self.old }
        ensures kept { link_piece self.new ≡ link_piece self.old }
    {
        self.calls.writes = self.calls.writes.saturating_add(1);
        let count = self.source.piece_of(piece.len());
        if !self.script.write_fails(self.calls.writes)
            && self.taken.extend_from_slice(&piece[..count]).is_ok()
        {
            return Wrote::Took(count);
        }
        self.faults = self.faults.saturating_add(1);
        Wrote::Failed
    }

    fn may_tell(&mut self) -> bool
        ensures permits { Permits (wire_of self.old) result (wire_of self.new) }

        // What the script makes of it.
        ensures answer { result ≡ next_permission self.old }
        ensures list { list_of_openings self.new ≡ list_of_openings self.old }
        ensures readings { list_of_readings self.new ≡ list_of_readings self.old }
        ensures permissions { list_of_permissions self.new ≡ with_told (list_of_permissions self.old) result }
        ensures calls { calls_of self.new ≡ with_question (calls_of self.old) }
        ensures script { script_of self.new ≡ script_of self.old }
        ensures kept { link_piece self.new ≡ link_piece self.old }
    {
        self.calls.questions = self.calls.questions.saturating_add(1);
        let answer = self.script.permits(self.calls.questions);
        self.permissions.push(answer);
        answer
    }

    fn judged(&mut self, _judgement: Judgement) {}
}

/// A read that goes so.
fn read_by(course: Course, source: &mut PlainLink, faults: &mut u64, room: &mut [u8]) -> LinkRead
    ensures same { length room.new ≡ length room.old }
    ensures read { Reads (counted_wire source.old faults.old) result room.new (counted_wire source.new faults.new) }
    ensures course { 0 < length room.old → course_of result ≡ course_over (plain_left source.old) course }
    ensures piece { (n : ℕ) → result ≡ read.Got n
        → n ≡ piece_of (plain_piece source.old) (min (length (plain_left source.old)) (length room.old)) }
    ensures kept { plain_piece source.new ≡ plain_piece source.old }
    ensures bytes { plain_bytes source.new ≡ plain_bytes source.old }
{
    match course {
        Course::Gives => source.read(room),
        Course::Idles => LinkRead::Idle,
        Course::Ends => LinkRead::End,
        Course::Fails => {
            *faults = faults.saturating_add(1);
            LinkRead::Failed
        }
    }
}

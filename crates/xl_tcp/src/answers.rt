ghost use Rattle.std.specs.Prelude.{◌≡◌};
ghost use Rattle.std.specs.IoError.{error_kind};
ghost use Rattle.xl_tcp.specs.Answers.{is_late, is_absence, opening_of, reading_of, writing_of};

use std::io::{self, ErrorKind};
use xl_io::Wrote;
use xl_links::{LinkRead, Opening};

/// An opening, by the connection that it brought.
pub(crate) fn opening_of<S>(connected: &io::Result<S>) -> Opening
    ensures { result ≡ opening_of connected.now }
{
    match connected {
        Ok(_) => Opening::Open,
        Err(error) if is_absence(error.kind()) => Opening::NotYet,
        Err(_) => Opening::Failed,
    }
}

/// A read, by how many bytes came.
pub(crate) fn reading_of(read: io::Result<usize>) -> LinkRead
    ensures { result ≡ reading_of read }
{
    match read {
        Ok(0) => LinkRead::End,
        Ok(count) => LinkRead::Got(count),
        Err(error) if is_late(error.kind()) => LinkRead::Idle,
        Err(_) => LinkRead::Failed,
    }
}

/// A write, by how many bytes were taken.
pub(crate) fn writing_of(written: io::Result<usize>) -> Wrote
    ensures { result ≡ writing_of written }
{
    match written {
        Ok(count) if count > 0 => Wrote::Took(count),
        _ => Wrote::Failed,
    }
}

/// Nothing happened within the time-out.
pub(crate) fn is_late(kind: ErrorKind) -> bool
    ensures { result ≡ is_late kind }
{
    matches!(kind, ErrorKind::WouldBlock | ErrorKind::TimedOut)
}

/// Nobody takes the call where it is made, or whoever made one has gone.
pub(crate) fn is_absence(kind: ErrorKind) -> bool
    ensures { result ≡ is_absence kind }
{
    match kind {
        ErrorKind::ConnectionRefused | ErrorKind::ConnectionReset => true,
        ErrorKind::ConnectionAborted | ErrorKind::HostUnreachable => true,
        other => is_late(other),
    }
}

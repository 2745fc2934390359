// Where a line ends.
ghost use Rattle.std.specs.Prelude.{◌≡◌};
ghost use Rattle.memchr.specs.Find.{IsFirstByte, is_byte};
ghost use Rattle.xl_lines.specs.Lines.{without_return, before_newline, whole_line};

use crate::Returns;
use memchr::memchr;

/// Where the first newline stands.
pub fn newline_in(bytes: &[u8]) -> Option<usize>
    ensures { IsFirstByte (is_byte 10) bytes.now result }
{
    memchr(b'\n', bytes)
}

/// The line without a return at its end.
pub fn without_return(line: &[u8]) -> &[u8]
    ensures { result.now ≡ without_return line.now }
{
    match line {
        [front @ .., b'\r'] => front,
        _ => line,
    }
}

/// What a machine is handed of the bytes before a newline.
pub fn before_newline(returns: Returns, line: &[u8]) -> &[u8]
    ensures { result.now ≡ before_newline returns line.now }
{
    match returns {
        Returns::Dropped => without_return(line),
        Returns::Kept => line,
    }
}

/// The line that ends with these bytes, its newline left out. They stand in it already if it had begun.
pub fn whole_line<'a>(had_begun: bool, line: &'a [u8], last: &'a [u8]) -> &'a [u8]
    ensures { result.now ≡ whole_line had_begun line.now last.now }
{
    if had_begun { line } else { last }
}

// A line becomes what it says, or a refusal.
ghost use Rattle.std.specs.Prelude.{◌≡◌, IfOk};
ghost use Rattle.xl_base.specs.Moments.{greatest_millis};
ghost use Rattle.xl_sched.specs.Answers.{is_comment};
ghost use Rattle.xl_sched.specs.Refusals.{GivenMemory};
ghost use Rattle.xl_sched.specs.Names.{id_written};
ghost use Rattle.xl_merge.specs.Lines.{header_line, later_line, worded_line, publisher_line, threshold_line, roll_line, at_line, list_line, key_of, roll_of, new_publisher_of, IsFit, IsFitLine};

use crate::line::Line;
use hex::{FromHex, FromHexError};
use std::alloc::Global;
use xl_base::{Bytes, GREATEST_MILLIS};
use xl_publish::{GREATEST_PUBLISHER, Publishers};
use xl_sched::{Cause, LineFault, Tokens, number_within};

/// The most bytes that a line may hand in as a roll.
const MOST_ROLL_BYTES: usize = 400;

/// Line 1 must be the header.
pub fn header<'a>(mut tokens: Tokens<'a>) -> Result<Option<Line>, LineFault<'a>>
    ensures { result ≡ header_line tokens.entry }
{
    let name = tokens.next().unwrap_or(b"".as_slice());
    let version = tokens.next().unwrap_or(b"".as_slice());
    if name == b"xl-publish".as_slice() && version == b"1".as_slice() && tokens.next().is_none() {
        Ok(None)
    } else {
        Err(LineFault::with_text(Cause::Header, name))
    }
}

/// A later line, where the publishers are these. An empty one and a comment are passed over.
pub fn later_line<'a>(
    alloc: Global,
    publishers: &Publishers,
    mut tokens: Tokens<'a>,
) -> Result<Option<Line>, LineFault<'a>>
    ensures value { GivenMemory result (later_line publishers.now tokens.entry) }
    ensures fit { IfOk result IsFit }
{
    match tokens.next() {
        None => Ok(None),
        Some(token) if is_comment(token) => Ok(None),
        Some(token) => Ok(Some(worded_line(alloc, publishers, token, tokens)?)),
    }
}

fn is_comment(token: &[u8]) -> bool
    ensures { result ≡ is_comment token.now }
{
    matches!(token, [b'#', ..])
}

/// The line of a first token, and of the tokens after it.
fn worded_line<'a>(
    alloc: Global,
    publishers: &Publishers,
    token: &'a [u8],
    arguments: Tokens<'a>,
) -> Result<Line, LineFault<'a>>
    ensures value { GivenMemory result (worded_line publishers.now token.now arguments.entry) }
    ensures fit { IfOk result IsFitLine }
{
    if token == b"publisher".as_slice() {
        publisher_line(publishers, arguments)
    } else if token == b"threshold".as_slice() {
        threshold_line(arguments)
    } else if token == b"roll".as_slice() {
        roll_line(alloc, arguments)
    } else if token == b"at".as_slice() {
        at_line(arguments)
    } else if token == b"list".as_slice() {
        list_line(arguments)
    } else {
        Err(LineFault::with_text(Cause::Word, token))
    }
}

/// `publisher p key`.
fn publisher_line<'a>(publishers: &Publishers, arguments: Tokens<'a>) -> Result<Line, LineFault<'a>>
    ensures { result ≡ publisher_line publishers.now arguments.entry }
{
    let (number, digits) = arguments.two()?;
    let publisher = new_publisher(publishers, number)?;
    Ok(Line::Publisher {
        publisher,
        key: key(digits)?,
    })
}

/// The number of a publisher that has no key yet.
fn new_publisher<'a>(publishers: &Publishers, token: &'a [u8]) -> Result<u32, LineFault<'a>>
    ensures { result ≡ new_publisher_of publishers.now token.now }
{
    let publisher = number_within(token, 1, u64::from(GREATEST_PUBLISHER))? as u32;
    if publishers.has(publisher) {
        Err(LineFault::with_text(Cause::Twice, token))
    } else {
        Ok(publisher)
    }
}

/// A key, by its 64 digits.
fn key<'a>(digits: &'a [u8]) -> Result<[u8; 32], LineFault<'a>>
    ensures { result ≡ key_of digits.now }
{
    id_written(digits).ok_or(LineFault::with_text(Cause::Id, digits))
}

fn id_written(token: &[u8]) -> Option<[u8; 32]>
    ensures { result ≡ id_written token.now }
{
    <[u8; 32]>::from_hex(token).ok()
}

/// `threshold t`.
fn threshold_line<'a>(arguments: Tokens<'a>) -> Result<Line, LineFault<'a>>
    ensures { result ≡ threshold_line arguments.entry }
{
    let token = arguments.one()?;
    let threshold = number_within(token, 1, u64::from(GREATEST_PUBLISHER))?;
    Ok(Line::Threshold(threshold as u32))
}

/// `roll digits`.
fn roll_line<'a>(alloc: Global, arguments: Tokens<'a>) -> Result<Line, LineFault<'a>>
    ensures { GivenMemory result (roll_line arguments.entry) }
{
    let digits = arguments.one()?;
    Ok(Line::Roll(roll(alloc, digits)?))
}

/// 1 to 400 bytes, by their hexadecimal digits.
fn roll<'a>(alloc: Global, digits: &'a [u8]) -> Result<Bytes, LineFault<'a>>
    ensures { GivenMemory result (roll_of digits.now) }
{
    match hex::decode(alloc, digits) {
        Ok(bytes) if !bytes.is_empty() && bytes.len() <= MOST_ROLL_BYTES => {
            Ok(Bytes::from_vec(bytes))
        }
        Err(FromHexError::OutOfMemory) => Err(LineFault::out_of_memory()),
        _ => Err(LineFault::with_text(Cause::Id, digits)),
    }
}

/// `at ms`.
fn at_line<'a>(arguments: Tokens<'a>) -> Result<Line, LineFault<'a>>
    ensures value { result ≡ at_line arguments.entry }
    ensures fit { IfOk result IsFitLine }
{
    let token = arguments.one()?;
    Ok(Line::At(number_within(token, 0, GREATEST_MILLIS)?))
}

/// `list`.
fn list_line<'a>(arguments: Tokens<'a>) -> Result<Line, LineFault<'a>>
    ensures { result ≡ list_line arguments.entry }
{
    arguments.none()?;
    Ok(Line::List)
}

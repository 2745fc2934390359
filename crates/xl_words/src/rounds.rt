// How many rounds `gen` is asked for.
ghost use Rattle.std.specs.Prelude.{◌≡◌};
ghost use Rattle.clap.specs.Words.{rows_of, found_of};
ghost use Rattle.xl_words.specs.Commands.{is_plain, in_range, number_in, rounds_in};

use clap::ArgMatches;

/// The number of rounds that the matches of `gen` hold.
pub fn rounds_of(matches: &ArgMatches<'_>) -> Option<u32>
    ensures { result ≡ rounds_in (rows_of (found_of matches.now)) }
{
    let text = matches.get_str("rounds")?;
    if is_plain(text) {
        number_of(matches)
    } else {
        None
    }
}

/// Whether a number is written with no sign and no zero in front.
fn is_plain(text: &str) -> bool
    ensures { result ≡ is_plain text.now }
{
    matches!(text.as_bytes(), [b'1'..=b'9', ..])
}

fn number_of(matches: &ArgMatches<'_>) -> Option<u32>
    ensures { result ≡ number_in (rows_of (found_of matches.now)) }
{
    match matches.get_one::<u64>("rounds") {
        Some(number) => in_range(number),
        None => None,
    }
}

/// The number, if `gen` takes it.
fn in_range(number: u64) -> Option<u32>
    ensures { result ≡ in_range number }
{
    if number >= 1 && number <= 1000 {
        Some(number as u32)
    } else {
        None
    }
}

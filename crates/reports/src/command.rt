// What the arguments of the program ask for.
ghost use Rattle.std.specs.Prelude.{◌≡◌, None, map, string_bytes};
ghost use Rattle.reports.specs.Arguments.{asks_help, is_option, listing_named, listing_of, after_scopes, request, request_of};

use listing::Shown;
use std::fmt;

pub const HELP: &str = "\
jobxml reads XML job descriptions, given as token listings: plain text with one
token a line, as docs/LISTING.md describes it.

usage:
  jobxml scopes [FILE]   tells the namespace of every name, and where it comes from
  jobxml --help          prints this text

Without FILE, or with - in its place, the listing is read from standard input.

scopes prints each tag with its line: what becomes of each namespace
declaration, and for each name its namespace and the line that declares it, or
why it has none. An end tag tells what it closes. The summary at the end lists
the names that landed in no namespace, and counts the errors by their numbers.

It reports the errors of declarations and prefixes, numbers 1 to 4 and 6. It
does not report mismatched end tags, duplicate attributes or tokens out of
place.

Reading ends at a malformed line, and at a tag that would pass a limit: 128 open
elements, 256 bindings at once, 512 different names or 16384 bytes of them. What
was read before that is printed.

The status is 0 if the listing was read to its end, with or without errors in
it, and otherwise 1.
";

#[derive(Clone, Copy)]
pub enum Input<'a> {
    Standard,
    File(&'a str),
}

impl fmt::Display for Input<'_> {
    fn fmt<W: fmt::Write>(&self, f: &mut fmt::Formatter<W>) -> fmt::Result {
        match *self {
            Input::Standard => f.write_str("standard input"),
            Input::File(file) => {
                let file = Shown(file.as_bytes());
                write!(f, "\"{file}\"")
            }
        }
    }
}

#[derive(Clone, Copy)]
pub enum Command<'a> {
    Help,
    Scopes(Input<'a>),
}

// Why the arguments ask for nothing that there is.
#[derive(Clone, Copy)]
pub enum Usage<'a> {
    Nothing,
    UnknownCommand(&'a str),
    UnknownOption(&'a str),
    ExtraWord(&'a str),
}

impl fmt::Display for Usage<'_> {
    fn fmt<W: fmt::Write>(&self, f: &mut fmt::Formatter<W>) -> fmt::Result {
        match *self {
            Usage::Nothing => f.write_str(HELP),
            Usage::UnknownCommand(word) => {
                let word = Shown(word.as_bytes());
                write!(
                    f,
                    "jobxml: there is no subcommand \"{word}\", only scopes and help"
                )?;
                f.write_str("; see jobxml --help\n")
            }
            Usage::UnknownOption(word) => {
                let word = Shown(word.as_bytes());
                write!(f, "jobxml: there is no option \"{word}\", only --help")?;
                f.write_str(" (a file of that name is given as ./NAME); see jobxml --help\n")
            }
            Usage::ExtraWord(word) => {
                let word = Shown(word.as_bytes());
                write!(
                    f,
                    "jobxml: scopes reads one FILE, and \"{word}\" is one too many"
                )?;
                f.write_str("; see jobxml --help\n")
            }
        }
    }
}

// A lone `-` is no option: it stands for standard input.
fn is_option(word: &str) -> bool
    ensures { result ≡ is_option word.now }
{
    matches!(word.as_bytes(), [b'-', _, ..])
}

fn asks_help(word: &str) -> bool
    ensures { result ≡ asks_help word.now }
{
    word == "--help" || word == "-h"
}

fn named_input(file: &str) -> Input<'_>
    ensures { listing_of result ≡ listing_named file.now }
{
    if file == "-" {
        Input::Standard
    } else {
        Input::File(file)
    }
}

fn scopes_input(words: &[String]) -> Result<Command<'_>, Usage<'_>>
    ensures { request_of result ≡ after_scopes None (map string_bytes words.now) }
{
    let mut input = None;
    for word in words {
        let word = word.as_str();
        if asks_help(word) {
            return Ok(Command::Help);
        }
        if is_option(word) {
            return Err(Usage::UnknownOption(word));
        }
        if input.is_some() {
            return Err(Usage::ExtraWord(word));
        }
        input = Some(word);
    }
    Ok(Command::Scopes(input.map_or(Input::Standard, named_input)))
}

// Reads the words after the program's own name.
pub fn parse(words: &[String]) -> Result<Command<'_>, Usage<'_>>
    ensures { request_of result ≡ request (map string_bytes words.now) }
{
    let [first, rest @ ..] = words else {
        return Err(Usage::Nothing);
    };
    match first.as_str() {
        "scopes" => scopes_input(rest),
        "help" | "--help" | "-h" => Ok(Command::Help),
        word if is_option(word) => Err(Usage::UnknownOption(word)),
        word => Err(Usage::UnknownCommand(word)),
    }
}

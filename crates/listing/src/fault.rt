// What can go wrong with a line of a listing.
ghost use Rattle.std.specs.Prelude.{◌≡◌};
ghost use Rattle.listing.specs.declared.fault.ListingFault.TheVariants as fault;

use std::alloc::{AllocError, AllocFailed};
use std::fmt;

// What should have stood where a line is malformed.
#[derive(Clone, Copy, Debug, PartialEq, Eq)]
pub enum Expected {
    Keyword,
    Name,
    AttributeForm,
    QuotedText,
    QuotedOrAbsent,
    ClosingQuote,
    Blank,
    HexDigits,
    EscapeLetter,
    LineEnd,
}

impl fmt::Display for Expected {
    fn fmt<W: fmt::Write>(&self, f: &mut fmt::Formatter<W>) -> fmt::Result {
        f.write_str(match self {
            Expected::Keyword => {
                "a keyword: start, end, empty, short, comment, text, instruction, doctype, null, eof or error"
            }
            Expected::Name => "a name after the keyword",
            Expected::AttributeForm => "name=\"value\"",
            Expected::QuotedText => "a text in quotes",
            Expected::QuotedOrAbsent => "a text in quotes or - for none",
            Expected::ClosingQuote => "the closing quote",
            Expected::Blank => "a blank after the closing quote",
            Expected::HexDigits => "two hex digits after \\x",
            Expected::EscapeLetter => "one of \\ \" : = n t r e x after \\",
            Expected::LineEnd => "nothing more on this line",
        })
    }
}

#[derive(Clone, Copy, Debug, PartialEq, Eq)]
pub enum ListingFault {
    Memory(AllocError),
    Expected(Expected),
}

impl From<Expected> for ListingFault {
    ghost from_gives = { λ e r. r ≡ fault.Expected e };

    fn from(expected: Expected) -> ListingFault {
        ListingFault::Expected(expected)
    }
}

impl From<AllocError> for ListingFault {
    ghost from_gives = { λ e r. r ≡ fault.Memory e };

    fn from(e: AllocError) -> ListingFault {
        ListingFault::Memory(e)
    }
}

impl<T: Drop> From<AllocFailed<T>> for ListingFault {
    ghost from_gives = { λ _ r. r ≡ fault.Memory (record {}) };

    fn from(failed: AllocFailed<T>) -> ListingFault {
        ListingFault::Memory(AllocError::from(failed))
    }
}

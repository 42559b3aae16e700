// Reads one line of a listing into its token.
ghost use Rattle.std.specs.Prelude.{◌≡◌, ◌≤◌, true, length, None, Ok};
ghost use Rattle.listing.specs.Skips.{is_blank, indent, is_skipped};

use crate::fault::{Expected, ListingFault};
use crate::pieces::{Piece, read_pieces};
use crate::signs::{Sign, bytes_of, read_signs};
use crate::token::{ListedAttribute, ListedKind, ListedName, ListedTag, ListedToken};
use std::alloc::{AllocError, Global};
use std::vec::IntoIter;

#[derive(Clone, Copy)]
enum Keyword {
    Tag(ListedKind),
    Short,
    Comment,
    Text,
    Instruction,
    Doctype,
    Null,
    Eof,
    Error,
}

impl TryFrom<&[u8]> for Keyword {
    type Error = Expected;

    fn try_from(word: &[u8]) -> Result<Keyword, Expected> {
        match word {
            b"start" => Ok(Keyword::Tag(ListedKind::Start)),
            b"end" => Ok(Keyword::Tag(ListedKind::End)),
            b"empty" => Ok(Keyword::Tag(ListedKind::Empty)),
            b"short" => Ok(Keyword::Short),
            b"comment" => Ok(Keyword::Comment),
            b"text" => Ok(Keyword::Text),
            b"instruction" => Ok(Keyword::Instruction),
            b"doctype" => Ok(Keyword::Doctype),
            b"null" => Ok(Keyword::Null),
            b"eof" => Ok(Keyword::Eof),
            b"error" => Ok(Keyword::Error),
            _ => Err(Expected::Keyword),
        }
    }
}

fn is_blank(b: u8) -> bool
    ensures { result ≡ is_blank b }
{
    b == b' ' || b == b'\t'
}

// How many blanks the line begins with.
fn blank_count(line: &[u8]) -> usize
    ensures value { result ≡ indent line.now }
    ensures within { result ≤ length line.now }
{
    line.iter().take_while(|b| is_blank(**b)).count()
}

fn split_word(line: &[u8]) -> (&[u8], &[u8]) {
    let end = line.iter().position(|b| is_blank(*b)).unwrap_or(line.len());
    line.split_at(end)
}

// The first colon that is not escaped ends the prefix.
fn name_of(heap: Global, word: &[Sign]) -> Result<ListedName, AllocError> {
    let colon = word
        .iter()
        .position(|sign| matches!(sign, Sign::Plain(b':')));
    match colon {
        Some(i) => Ok(ListedName {
            prefix: Some(bytes_of(heap, &word[..i])?),
            local: bytes_of(heap, &word[i + 1..])?,
        }),
        None => Ok(ListedName {
            prefix: None,
            local: bytes_of(heap, word)?,
        }),
    }
}

fn attribute(heap: Global, piece: Piece) -> Result<ListedAttribute, ListingFault> {
    match piece {
        Piece::Attribute(name, value) => Ok(ListedAttribute {
            name: name_of(heap, name)?,
            value: bytes_of(heap, value)?,
        }),
        _ => Err(Expected::AttributeForm.into()),
    }
}

// The pieces of a line that are still to be read.
#[derive(Drop)]
struct Pieces<'a> {
    heap: Global,
    rest: IntoIter<Piece<'a>>,
}

// Each of these gives another type, and expects something else.
impl Pieces<'_> {
    fn name(&mut self) -> Result<ListedName, ListingFault> {
        match self.rest.next() {
            Some(Piece::Word(word)) => Ok(name_of(self.heap, word)?),
            _ => Err(Expected::Name.into()),
        }
    }

    fn attributes(&mut self) -> Result<Vec<ListedAttribute>, ListingFault> {
        let heap = self.heap;
        self.rest
            .by_ref()
            .map(|piece| attribute(heap, piece))
            .try_collect(heap)
    }

    fn quoted(&mut self) -> Result<Vec<u8>, ListingFault> {
        match self.rest.next() {
            Some(Piece::Text(text)) => Ok(bytes_of(self.heap, text)?),
            _ => Err(Expected::QuotedText.into()),
        }
    }

    fn quoted_or_absent(&mut self) -> Result<Option<Vec<u8>>, ListingFault> {
        match self.rest.next() {
            Some(Piece::Text(text)) => Ok(Some(bytes_of(self.heap, text)?)),
            Some(Piece::Word([Sign::Plain(b'-')])) => Ok(None),
            _ => Err(Expected::QuotedOrAbsent.into()),
        }
    }

    fn end(&mut self) -> Result<(), Expected> {
        match self.rest.next() {
            None => Ok(()),
            Some(_) => Err(Expected::LineEnd),
        }
    }

    // The keyword decides which pieces follow. Each arm reads other pieces into another token, so a table would be no
    // plainer.
    fn token(&mut self, keyword: Keyword) -> Result<ListedToken, ListingFault> {
        match keyword {
            Keyword::Tag(kind) => Ok(ListedToken::Tag(ListedTag {
                kind,
                name: self.name()?,
                attrs: self.attributes()?,
            })),
            Keyword::Short => Ok(ListedToken::ShortTag),
            Keyword::Comment => Ok(ListedToken::Comment(self.quoted()?)),
            Keyword::Text => Ok(ListedToken::Characters(self.quoted()?)),
            Keyword::Instruction => Ok(ListedToken::Instruction {
                target: self.quoted()?,
                data: self.quoted()?,
            }),
            Keyword::Doctype => Ok(ListedToken::Doctype {
                name: self.quoted_or_absent()?,
                public: self.quoted_or_absent()?,
                system: self.quoted_or_absent()?,
            }),
            Keyword::Null => Ok(ListedToken::NullCharacter),
            Keyword::Eof => Ok(ListedToken::EndOfFile),
            Keyword::Error => Ok(ListedToken::Error(self.quoted()?)),
        }
    }
}

// The token of a line that is neither blank nor a comment. The keyword is looked at first, so that a line which is no
// listing at all is told so, and not that an escape or a quote is wrong in it.
fn read_line(heap: Global, line: &[u8]) -> Result<ListedToken, ListingFault> {
    let (word, rest) = split_word(&line[blank_count(line)..]);
    let keyword = Keyword::try_from(word)?;
    let signs = read_signs(heap, rest)?;
    let rest = read_pieces(heap, signs.as_slice())?.into_iter();
    let mut pieces = Pieces { heap, rest };
    let token = pieces.token(keyword)?;
    pieces.end()?;
    Ok(token)
}

// Whether the line is blank or a comment.
fn is_skipped(line: &[u8]) -> bool
    ensures { result ≡ is_skipped line.now }
{
    matches!(line.get(blank_count(line)), None | Some(b'#'))
}

// The token of a line, given without its line ending; `None` for a blank line and for a comment, and for no other.
pub fn read_token(heap: Global, line: &[u8]) -> Result<Option<ListedToken>, ListingFault>
    ensures skips { is_skipped line.now ≡ true → result ≡ Ok None }
    ensures reads { result ≡ Ok None → is_skipped line.now ≡ true }
{
    if is_skipped(line) {
        Ok(None)
    } else {
        read_line(heap, line).map(Some)
    }
}

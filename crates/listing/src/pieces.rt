// Cuts what follows a keyword into pieces: words, texts in quotes, and a word with a text after an `=`.
ghost use Rattle.std.specs.Prelude.{◌<◌, length, IfOk};

use crate::fault::{Expected, ListingFault};
use crate::signs::Sign;
use std::alloc::Global;

#[derive(Clone, Copy)]
pub(crate) enum Piece<'a> {
    Word(&'a [Sign]),
    Text(&'a [Sign]),
    Attribute(&'a [Sign], &'a [Sign]),
}

// A text up to its closing quote, and what follows that. The signs begin after the opening quote.
fn quoted(signs: &[Sign]) -> Result<(&[Sign], &[Sign]), Expected>
    ensures { IfOk result (λ r. length r.1.now < length signs.now) }
{
    let end = signs
        .iter()
        .position(|sign| matches!(sign, Sign::Plain(b'"')))
        .ok_or(Expected::ClosingQuote)?;
    let rest = &signs[end + 1..];
    match rest {
        [] | [Sign::Plain(b' ' | b'\t'), ..] => Ok((&signs[..end], rest)),
        _ => Err(Expected::Blank),
    }
}

// The first piece, and what follows it. The signs begin with one that is no blank.
fn first_piece(signs: &[Sign]) -> Result<(Piece<'_>, &[Sign]), Expected>
    ensures { IfOk result (λ r. length r.1.now < length signs.now) }
{
    let end = signs
        .iter()
        .position(|sign| matches!(sign, Sign::Plain(b' ' | b'\t' | b'"' | b'=')))
        .unwrap_or(signs.len());
    match signs.split_at(end) {
        ([], [Sign::Plain(b'"'), rest @ ..]) => {
            let (text, rest) = quoted(rest)?;
            Ok((Piece::Text(text), rest))
        }
        (name @ [_, ..], [Sign::Plain(b'='), Sign::Plain(b'"'), rest @ ..]) => {
            let (value, rest) = quoted(rest)?;
            Ok((Piece::Attribute(name, value), rest))
        }
        (word @ [_, ..], rest @ ([] | [Sign::Plain(b' ' | b'\t'), ..])) => {
            Ok((Piece::Word(word), rest))
        }
        _ => Err(Expected::AttributeForm),
    }
}

pub(crate) fn read_pieces(heap: Global, signs: &[Sign]) -> Result<Vec<Piece<'_>>, ListingFault> {
    let mut pieces = Vec::new(heap);
    let mut rest = signs;
    while let [first, after @ ..] = rest {
        if let Sign::Plain(b' ' | b'\t') = first {
            rest = after;
        } else {
            let (piece, after) = first_piece(rest)?;
            pieces.push(piece)?;
            rest = after;
        }
    }
    Ok(pieces)
}

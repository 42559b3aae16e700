// Undoes the escapes of a line, and keeps apart which bytes were written by one.
ghost use Rattle.std.specs.Prelude.{◌≤◌, length, IfOk};

use crate::fault::{Expected, ListingFault};
use std::alloc::{AllocError, Global};

// A byte of a line as its writer meant it. Only a plain one can be a quote, a blank, an `=` or a colon that separates.
#[derive(Clone, Copy)]
pub(crate) enum Sign {
    Plain(u8),
    Escaped(u8),
    // `\e`, which stands for no byte: it lets a name be empty.
    Nothing,
}

impl Sign {
    fn byte(self) -> Option<u8> {
        match self {
            Sign::Plain(b) | Sign::Escaped(b) => Some(b),
            Sign::Nothing => None,
        }
    }
}

// The bytes that the signs stand for.
pub(crate) fn bytes_of(heap: Global, signs: &[Sign]) -> Result<Vec<u8>, AllocError> {
    signs.iter().filter_map(|sign| sign.byte()).collect(heap)
}

fn hex_digit(b: u8) -> Result<u8, Expected> {
    let digit = char::from(b).to_digit(16).ok_or(Expected::HexDigits)?;
    Ok(digit as u8)
}

// The sign that an escape stands for, and what follows it. The bytes begin after its backslash.
fn escaped(bytes: &[u8]) -> Result<(Sign, &[u8]), Expected>
    ensures { IfOk result (λ r. length r.1.now ≤ length bytes.now) }
{
    match bytes {
        [b @ (b'\\' | b'"' | b':' | b'='), rest @ ..] => Ok((Sign::Escaped(*b), rest)),
        [b'n', rest @ ..] => Ok((Sign::Escaped(b'\n'), rest)),
        [b't', rest @ ..] => Ok((Sign::Escaped(b'\t'), rest)),
        [b'r', rest @ ..] => Ok((Sign::Escaped(b'\r'), rest)),
        [b'e', rest @ ..] => Ok((Sign::Nothing, rest)),
        [b'x', high, low, rest @ ..] => {
            let b = hex_digit(*high)? << 4 | hex_digit(*low)?;
            Ok((Sign::Escaped(b), rest))
        }
        [b'x', ..] => Err(Expected::HexDigits),
        _ => Err(Expected::EscapeLetter),
    }
}

// The signs of a piece of a line, or what was expected where an escape is malformed.
pub(crate) fn read_signs(heap: Global, bytes: &[u8]) -> Result<Vec<Sign>, ListingFault> {
    let mut signs = Vec::new(heap);
    let mut rest = bytes;
    while let [first, after @ ..] = rest {
        let (sign, after) = match *first {
            b'\\' => escaped(after)?,
            b => (Sign::Plain(b), after),
        };
        signs.push(sign)?;
        rest = after;
    }
    Ok(signs)
}

// Writes bytes so that a person can read them, and so that a listing can take them again between quotes.
use std::fmt;

// The bytes in the escapes of a listing, without the quotes around them.
#[derive(Clone, Copy)]
pub struct Shown<'a>(pub &'a [u8]);

fn show_char<W: fmt::Write>(c: char, f: &mut fmt::Formatter<W>) -> fmt::Result {
    match c {
        '\\' => f.write_str("\\\\"),
        '"' => f.write_str("\\\""),
        '\n' => f.write_str("\\n"),
        '\t' => f.write_str("\\t"),
        '\r' => f.write_str("\\r"),
        _ if c.is_ascii_control() => write!(f, "\\x{:02x}", u32::from(c)),
        _ => f.write_char(c),
    }
}

fn show_text<W: fmt::Write>(text: &str, f: &mut fmt::Formatter<W>) -> fmt::Result {
    for c in text.chars() {
        show_char(c, f)?;
    }
    Ok(())
}

fn show_bytes<W: fmt::Write>(bytes: &[u8], f: &mut fmt::Formatter<W>) -> fmt::Result {
    for &b in bytes {
        if b.is_ascii() {
            show_char(char::from(b), f)?;
        } else {
            write!(f, "\\x{b:02x}")?;
        }
    }
    Ok(())
}

impl fmt::Display for Shown<'_> {
    fn fmt<W: fmt::Write>(&self, f: &mut fmt::Formatter<W>) -> fmt::Result {
        match std::str::from_utf8(self.0) {
            Ok(text) => show_text(text, f),
            Err(_) => show_bytes(self.0, f),
        }
    }
}

// Reads tokens from a tape: 32-bit words that say what there is, and one text that holds all the bytes.
#![tactic(auto)]

mod cursor;
mod entering;
mod faults;
mod makes;
mod parts;
mod reader;
mod scans;
mod tokens;
mod words;

pub use cursor::Tape;
pub use faults::{TapeCause, TapeFault};
pub use makes::MOST_ATTRIBUTES;
pub use tokens::{Doctype, Pi, Tag, TagKind, Token};

// Reads a token listing: plain text with one XML token a line, written by people.
#![tactic(auto)]

mod fault;
mod lines;
mod pieces;
mod read;
mod show;
mod signs;
mod token;

pub use fault::{Expected, ListingFault};
pub use lines::{Lines, lines_of, next_line};
pub use read::read_token;
pub use show::Shown;
pub use token::{ListedAttribute, ListedKind, ListedName, ListedTag, ListedToken};

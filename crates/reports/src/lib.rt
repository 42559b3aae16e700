// What the subcommands of the program print, and what its arguments ask for.
#![tactic(auto)]

mod command;
mod element;
mod reading;
mod report;
mod stop;
mod tag;
mod tally;
mod texts;
mod words;
mod write;

pub use command::{Command, HELP, Input, Usage, parse};
pub use report::{Report, scopes_report};

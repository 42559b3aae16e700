// Names as numbers, what is made of them, and the codes by which later layers speak of errors and refusals.
#![tactic(auto)]

mod errors;
mod qualified;
mod refusals;
mod spans;
mod store;
mod table;

pub use errors::ErrorCode;
pub use qualified::{ExpandedName, Name, QualName, XML_URI, XMLNS_URI};
pub use refusals::{Layer, NameFault, Refusal, RefusalCode};
pub use spans::{Attribute, Span};
pub use table::NameTable;

// Which namespace a prefix stands for: declarations, rows of bindings for the open elements, and the look-up.
#![tactic(auto)]

mod bindings;
mod declarations;
mod faults;
mod prefixes;
mod stack;
mod tables;

pub use bindings::{Binding, Found, Lookup};
pub use declarations::{Declares, Effect, declared_by, weigh};
pub use faults::ScopeFault;
pub use tables::{MOST_BINDINGS, ScopeTable, Scopes, SerializerScopes};

// The lines that are printed for a tag.
use crate::element::{Absence, OpenElement, Resolved};
use crate::tag::{Declaration, Weighed};
use crate::texts::{Named, Prefix, Subject};
use crate::words::error_words;
use listing::Shown;
use names::Name;
use scopes::Effect;
use std::fmt;

impl fmt::Display for Named<'_, &Weighed> {
    fn fmt<W: fmt::Write>(&self, f: &mut fmt::Formatter<W>) -> fmt::Result {
        let Declaration {
            name,
            prefix,
            value,
        } = &self.value.declaration;
        let name = self.with(*name);
        let value = Shown(value.as_slice());
        let prefix = self.with(Prefix(*prefix));
        write!(f, "{name}=\"{value}\": ")?;
        match self.value.verdict {
            Ok(Effect::Binds) => write!(f, "binds {prefix}"),
            Ok(Effect::Undeclares) => write!(f, "undeclares {prefix}"),
            Ok(Effect::Nothing) => write!(f, "no effect, {prefix} is built in"),
            Err(code) => {
                let number = code.number();
                let words = error_words(code);
                write!(f, "error {number}: {words}")
            }
        }
    }
}

// Why a name with this prefix has no namespace.
#[derive(Clone, Copy)]
pub(crate) struct Reason {
    pub(crate) prefix: Option<Name>,
    pub(crate) absence: Absence,
}

impl fmt::Display for Named<'_, Reason> {
    fn fmt<W: fmt::Write>(&self, f: &mut fmt::Formatter<W>) -> fmt::Result {
        let prefix = self.with(Subject(self.value.prefix));
        match self.value.absence {
            Absence::Undeclared { line } => write!(f, "{prefix} is undeclared on line {line}"),
            Absence::Unbound => write!(f, "{prefix} is not bound"),
            Absence::NoDefault => f.write_str("no default namespace is declared"),
            Absence::NoPrefix => f.write_str("it has no prefix"),
        }
    }
}

impl fmt::Display for Named<'_, Resolved> {
    fn fmt<W: fmt::Write>(&self, f: &mut fmt::Formatter<W>) -> fmt::Result {
        let Resolved {
            item,
            name,
            origin,
            error,
        } = self.value;
        let prefix = name.prefix;
        write!(f, "{item} {}: ", self.with(name))?;
        match origin {
            Ok(origin) => {
                let ns = self.with(name.ns);
                let prefix = self.with(Prefix(prefix));
                write!(f, "\"{ns}\" ({prefix}, {origin})")
            }
            Err(absence) => {
                let reason = self.with(Reason { prefix, absence });
                match error {
                    Some(code) => {
                        let number = code.number();
                        write!(f, "no namespace; error {number}: {reason}")
                    }
                    None => write!(f, "no namespace ({reason})"),
                }
            }
        }
    }
}

// An element that is closed, with how many inside it.
#[derive(Clone, Copy)]
pub(crate) struct Closed {
    pub(crate) element: OpenElement,
    pub(crate) inside: usize,
}

impl fmt::Display for Named<'_, Closed> {
    fn fmt<W: fmt::Write>(&self, f: &mut fmt::Formatter<W>) -> fmt::Result {
        let Closed { element, inside } = self.value;
        let name = self.with(element.name);
        let line = element.line;
        write!(f, "closes {name} (line {line})")?;
        match inside {
            0 => Ok(()),
            1 => f.write_str(" and 1 element inside it"),
            _ => write!(f, " and {inside} elements inside it"),
        }
    }
}

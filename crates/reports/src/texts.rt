// Names and prefixes as a report shows them.
use listing::{ListedName, Shown};
use names::{Name, NameTable, QualName};
use std::fmt;

// A name as it is printed. One without a byte is shown as a listing writes it.
#[derive(Clone, Copy)]
pub(crate) struct NameText<'a> {
    prefix: Option<&'a [u8]>,
    local: &'a [u8],
}

impl<'a> From<&'a ListedName> for NameText<'a> {
    fn from(name: &'a ListedName) -> NameText<'a> {
        NameText {
            prefix: name.prefix.as_deref(),
            local: name.local.as_slice(),
        }
    }
}

impl fmt::Display for NameText<'_> {
    fn fmt<W: fmt::Write>(&self, f: &mut fmt::Formatter<W>) -> fmt::Result {
        let local = Shown(self.local);
        match self.prefix {
            Some(prefix) => {
                let prefix = Shown(prefix);
                write!(f, "{prefix}:{local}")
            }
            None if self.local.is_empty() => f.write_str("\\e"),
            None => write!(f, "{local}"),
        }
    }
}

// A value whose names are numbers, with the table that has their texts.
#[derive(Clone, Copy)]
pub(crate) struct Named<'a, T> {
    names: &'a NameTable,
    pub(crate) value: T,
}

impl<'a, T> Named<'a, T> {
    pub(crate) fn new(names: &'a NameTable, value: T) -> Named<'a, T> {
        Named { names, value }
    }

    // Another value, with the same table.
    pub(crate) fn with<U>(&self, value: U) -> Named<'a, U> {
        Named {
            names: self.names,
            value,
        }
    }

    // Every number that a reading holds is in its table, so the empty text never stands in for another.
    fn text(&self, name: Name) -> &'a [u8] {
        self.names.text(name).unwrap_or(&[])
    }
}

impl fmt::Display for Named<'_, Name> {
    fn fmt<W: fmt::Write>(&self, f: &mut fmt::Formatter<W>) -> fmt::Result {
        let text = Shown(self.text(self.value));
        write!(f, "{text}")
    }
}

impl fmt::Display for Named<'_, QualName> {
    fn fmt<W: fmt::Write>(&self, f: &mut fmt::Formatter<W>) -> fmt::Result {
        let QualName {
            prefix,
            ns: _,
            local,
        } = self.value;
        let text = NameText {
            prefix: prefix.map(|prefix| self.text(prefix)),
            local: self.text(local),
        };
        write!(f, "{text}")
    }
}

// A prefix by itself: `c`, the default namespace or the empty prefix.
#[derive(Clone, Copy)]
pub(crate) struct Prefix(pub(crate) Option<Name>);

impl fmt::Display for Named<'_, Prefix> {
    fn fmt<W: fmt::Write>(&self, f: &mut fmt::Formatter<W>) -> fmt::Result {
        match self.value.0 {
            None => f.write_str("the default namespace"),
            Some(Name::EMPTY) => f.write_str("the empty prefix"),
            Some(prefix) => {
                let prefix = self.with(prefix);
                write!(f, "{prefix}")
            }
        }
    }
}

// A prefix as the subject of a sentence: `the prefix c`, the default namespace or the empty prefix.
#[derive(Clone, Copy)]
pub(crate) struct Subject(pub(crate) Option<Name>);

impl fmt::Display for Named<'_, Subject> {
    fn fmt<W: fmt::Write>(&self, f: &mut fmt::Formatter<W>) -> fmt::Result {
        let prefix = self.with(Prefix(self.value.0));
        match self.value.0 {
            None | Some(Name::EMPTY) => write!(f, "{prefix}"),
            Some(_) => write!(f, "the prefix {prefix}"),
        }
    }
}

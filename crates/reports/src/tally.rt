// What a reading counts, for the summary.
use crate::element::{Absence, Item, Resolved};
use crate::texts::Named;
use crate::words::error_words;
use crate::write::Reason;
use listing::ListedKind;
use names::{ErrorCode, QualName};
use std::alloc::{AllocError, Global};
use std::collections::BTreeMap;
use std::fmt;

// A name that landed in no namespace.
#[derive(Clone, Copy)]
struct Stray {
    line: usize,
    item: Item,
    name: QualName,
    absence: Absence,
}

#[derive(Drop)]
pub(crate) struct Tally {
    tags: usize,
    bound: usize,
    elements: usize,
    strays: Vec<Stray>,
    errors: BTreeMap<ErrorCode, usize>,
}

impl Tally {
    pub(crate) fn new(heap: Global) -> Tally {
        Tally {
            tags: 0,
            bound: 0,
            elements: 0,
            strays: Vec::new(heap),
            errors: BTreeMap::new(heap),
        }
    }

    pub(crate) fn count_tag(&mut self) {
        self.tags = self.tags.saturating_add(1);
    }

    pub(crate) fn count_bound(&mut self, kind: ListedKind) {
        self.bound = self.bound.saturating_add(1);
        if kind != ListedKind::End {
            self.elements = self.elements.saturating_add(1);
        }
    }

    pub(crate) fn note_error(&mut self, error: Option<ErrorCode>) -> Result<(), AllocError> {
        if let Some(code) = error {
            let count = self.errors.entry(code)?.or_insert(0);
            *count = count.saturating_add(1);
        }
        Ok(())
    }

    // An attribute without a prefix is meant to have no namespace, so it is no stray.
    pub(crate) fn note_name(&mut self, line: usize, resolved: Resolved) -> Result<(), AllocError> {
        let Resolved {
            item,
            name,
            origin,
            error,
        } = resolved;
        match origin {
            Ok(_) | Err(Absence::NoPrefix) => {}
            Err(absence) => {
                self.strays.push(Stray {
                    line,
                    item,
                    name,
                    absence,
                })?;
            }
        }
        self.note_error(error)
    }
}

impl fmt::Display for Named<'_, Stray> {
    fn fmt<W: fmt::Write>(&self, f: &mut fmt::Formatter<W>) -> fmt::Result {
        let Stray {
            line,
            item,
            name,
            absence,
        } = self.value;
        let prefix = name.prefix;
        let name = self.with(name);
        let reason = self.with(Reason { prefix, absence });
        write!(f, "line {line}: {item} {name} ({reason})")
    }
}

impl fmt::Display for Named<'_, &[Stray]> {
    fn fmt<W: fmt::Write>(&self, f: &mut fmt::Formatter<W>) -> fmt::Result {
        if self.value.is_empty() {
            return f.write_str("    none\n");
        }
        for stray in self.value {
            let stray = self.with(*stray);
            writeln!(f, "    {stray}")?;
        }
        Ok(())
    }
}

// How often each error came, by the numbers of the errors.
#[derive(Clone, Copy)]
struct Errors<'a>(&'a BTreeMap<ErrorCode, usize>);

impl fmt::Display for Errors<'_> {
    fn fmt<W: fmt::Write>(&self, f: &mut fmt::Formatter<W>) -> fmt::Result {
        if self.0.is_empty() {
            return f.write_str("    none\n");
        }
        for (code, count) in self.0 {
            let number = code.number();
            let words = error_words(*code);
            writeln!(f, "    {number}, {words}: {count}")?;
        }
        Ok(())
    }
}

impl fmt::Display for Named<'_, &Tally> {
    fn fmt<W: fmt::Write>(&self, f: &mut fmt::Formatter<W>) -> fmt::Result {
        let Tally {
            tags,
            bound,
            elements,
            strays,
            errors,
        } = self.value;
        writeln!(f, "summary")?;
        writeln!(
            f,
            "  tags read: {tags}, bound: {bound}, elements: {elements}"
        )?;
        let strays = self.with(strays.as_slice());
        write!(f, "  names in no namespace:\n{strays}")?;
        let errors = Errors(errors);
        write!(f, "  errors:\n{errors}")
    }
}

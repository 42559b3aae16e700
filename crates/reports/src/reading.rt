// Reads a listing token by token, and prints each tag with the namespaces of its names.
ghost use Rattle.std.specs.Prelude.{◌<◌, IfSome, vec_len};

use crate::element::{Item, OpenElement, Resolved, View, innermost};
use crate::stop::Stop;
use crate::tag::{Declared, Tag, Weighed};
use crate::tally::Tally;
use crate::texts::{NameText, Named};
use crate::write::Closed;
use listing::{ListedKind, ListedTag, ListedToken, lines_of, read_token};
use names::{NameTable, QualName};
use scopes::{Binding, MOST_BINDINGS, ScopeFault, ScopeTable};
use std::alloc::{AllocError, Global};
use std::fmt;

// Before the root element, inside it, and after the document has ended on a line.
#[derive(Clone, Copy, PartialEq, Eq)]
enum Phase {
    Start,
    Main,
    End { line: usize },
}

impl Phase {
    // The end of the file ends the document, unless it has ended before.
    fn after_end_of_file(self, line: usize) -> Phase {
        match self {
            Phase::Start | Phase::Main => Phase::End { line },
            Phase::End { .. } => self,
        }
    }

    // An end tag needs an open element, and after its end a document has no tags.
    fn binds(self, kind: ListedKind) -> bool {
        match self {
            Phase::Start => kind != ListedKind::End,
            Phase::Main => true,
            Phase::End { .. } => false,
        }
    }
}

impl fmt::Display for Phase {
    fn fmt<W: fmt::Write>(&self, f: &mut fmt::Formatter<W>) -> fmt::Result {
        match self {
            Phase::Start => f.write_str("the root element has not begun"),
            Phase::Main => f.write_str("the root element is open"),
            Phase::End { line } => write!(f, "the document has ended on line {line}"),
        }
    }
}

// The elements are the open ones, and the table has a row for each. The line is that of the token at hand.
#[derive(Drop)]
pub(crate) struct Reading {
    heap: Global,
    line: usize,
    names: NameTable,
    scopes: ScopeTable,
    elements: Vec<OpenElement>,
    phase: Phase,
    tally: Tally,
    out: String,
}

// The table after the tag. Only a start tag's bindings stay, but those of every tag have to find room.
fn scopes_after(
    scopes: ScopeTable,
    kind: ListedKind,
    bindings: &[Binding],
) -> Result<ScopeTable, ScopeFault> {
    let starts = kind == ListedKind::Start;
    let after = if starts { scopes.open_row()? } else { scopes };
    if scopes.binding_count().saturating_add(bindings.len()) > MOST_BINDINGS {
        return Err(ScopeFault::TooManyBindings);
    }
    if starts {
        bindings
            .iter()
            .try_fold(after, |table, binding| table.add(*binding))
    } else {
        Ok(after)
    }
}

impl Reading {
    pub(crate) fn new(heap: Global) -> Result<Reading, AllocError> {
        Ok(Reading {
            heap,
            line: 0,
            names: NameTable::new(heap)?,
            scopes: ScopeTable::new(),
            elements: Vec::new(heap),
            phase: Phase::Start,
            tally: Tally::new(heap),
            out: String::new(heap),
        })
    }

    // Reads to the end of the listing, or to the first line that stops the reading.
    pub(crate) fn read_listing(&mut self, listing: &[u8]) -> Result<(), Stop> {
        for text in lines_of(listing) {
            self.read_line(text)?;
        }
        Ok(())
    }

    fn read_line(&mut self, text: &[u8]) -> Result<(), Stop> {
        self.line = self.line.saturating_add(1);
        match read_token(self.heap, text)? {
            Some(token) => self.take_token(token),
            None => Ok(()),
        }
    }

    fn take_token(&mut self, token: ListedToken) -> Result<(), Stop> {
        match token {
            ListedToken::Tag(tag) => return self.take_tag(tag),
            ListedToken::ShortTag => return self.take_short(),
            ListedToken::EndOfFile => self.phase = self.phase.after_end_of_file(self.line),
            // Inside the root element a null character ends the document.
            ListedToken::NullCharacter if self.phase == Phase::Main => {
                self.phase = Phase::End { line: self.line };
            }
            _ => {}
        }
        Ok(())
    }

    fn take_tag(&mut self, listed: ListedTag) -> Result<(), Stop> {
        let line = self.line;
        let kind = listed.kind;
        let name = NameText::from(&listed.name);
        writeln!(self.out, "line {line}: {kind} {name}")?;
        self.tally.count_tag();
        let tag = Tag::enter(self.heap, &mut self.names, listed)?;
        if self.phase.binds(tag.kind) {
            return self.bind_tag(tag);
        }
        writeln!(self.out, "  not bound: {}", self.phase)?;
        Ok(())
    }

    // Everything that can refuse the tag comes before anything changes, but for the name table, which keeps what was
    // entered.
    fn bind_tag(&mut self, tag: Tag) -> Result<(), Stop> {
        let Tag {
            kind,
            name,
            declarations,
            attrs,
        } = tag;
        let declared = Declared::weigh_all(self.heap, &mut self.names, declarations)?;
        let bindings = declared.bindings.as_slice();
        let scopes = scopes_after(self.scopes, kind, bindings)?;
        let view = View {
            elements: self.elements.as_slice(),
            scopes: &self.scopes,
            bindings,
            line: self.line,
        };
        let attrs = view.resolve_attributes(self.heap, attrs.as_slice())?;
        let own = view.resolve(Item::from(kind), name);
        self.print_declarations(declared.weighed.as_slice())?;
        self.print_names(attrs.as_slice())?;
        self.print_names(&[own])?;
        self.scopes = scopes;
        self.finish_tag(kind, own.name)
    }

    fn print_declarations(&mut self, weighed: &[Weighed]) -> Result<(), AllocError> {
        for declaration in weighed {
            writeln!(self.out, "  {}", Named::new(&self.names, declaration))?;
            self.tally.note_error(declaration.verdict.err())?;
        }
        Ok(())
    }

    // Like the declarations, but the tally keeps the names that have no namespace.
    fn print_names(&mut self, resolved: &[Resolved]) -> Result<(), AllocError> {
        for name in resolved {
            writeln!(self.out, "  {}", Named::new(&self.names, *name))?;
            self.tally.note_name(self.line, *name)?;
        }
        Ok(())
    }

    fn finish_tag(&mut self, kind: ListedKind, name: QualName) -> Result<(), Stop> {
        let line = self.line;
        self.tally.count_bound(kind);
        match kind {
            ListedKind::Start => {
                self.elements.push(OpenElement { name, line })?;
                self.phase = Phase::Main;
                Ok(())
            }
            ListedKind::Empty => {
                // An empty tag as the root is the whole document.
                if self.phase == Phase::Start {
                    self.phase = Phase::End { line };
                }
                Ok(())
            }
            ListedKind::End => {
                let place = innermost(self.elements.as_slice(), name.expanded());
                self.close_from(place)
            }
        }
    }

    fn take_short(&mut self) -> Result<(), Stop> {
        writeln!(self.out, "line {}: short", self.line)?;
        if self.phase == Phase::Main {
            let innermost = self.elements.len().checked_sub(1);
            return self.close_from(innermost);
        }
        writeln!(self.out, "  closes nothing: {}", self.phase)?;
        Ok(())
    }

    // Closes the open element at a place, and all inside it. There is no place where no element was found.
    fn close_from(&mut self, place: Option<usize>) -> Result<(), Stop>
        requires { IfSome place (λ i. i < vec_len self.old.elements) }
    {
        let Some(place) = place else {
            self.out
                .push_str("  closes nothing: no open element has this name\n")?;
            return Ok(());
        };
        let element = self.elements[place];
        let inside = self.elements.len() - place - 1;
        let closed = Named::new(&self.names, Closed { element, inside });
        writeln!(self.out, "  {closed}")?;
        self.elements.truncate(place);
        self.scopes = (0..=inside).try_fold(self.scopes, |table, _| table.close_row())?;
        if self.elements.is_empty() {
            self.phase = Phase::End { line: self.line };
        }
        Ok(())
    }

    // A malformed line has nothing printed yet, and a refused tag its first line.
    pub(crate) fn print_stop(&mut self, stop: Stop) -> Result<(), AllocError> {
        let line = self.line;
        match stop {
            Stop::Malformed(_) => writeln!(self.out, "line {line}: {stop}; reading ends here"),
            _ => writeln!(self.out, "  {stop}; reading ends here"),
        }
    }

    // All that was printed, with the summary.
    pub(crate) fn finish(self) -> Result<String, AllocError> {
        let Reading {
            names,
            tally,
            mut out,
            ..
        } = self;
        write!(out, "{}", Named::new(&names, &tally))?;
        Ok(out)
    }
}

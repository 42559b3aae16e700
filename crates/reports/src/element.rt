// Open elements, and where the names of a tag find their namespaces.
ghost use Rattle.std.specs.Prelude.{◌<◌, IfSome, length};

use listing::ListedKind;
use names::{ErrorCode, ExpandedName, Name, QualName};
use scopes::{Binding, Lookup, ScopeTable};
use std::alloc::{AllocError, Global};
use std::fmt;

// A listing has a tag on one line, so all declarations of an element stand on the line of its tag.
#[derive(Clone, Copy)]
pub(crate) struct OpenElement {
    pub(crate) name: QualName,
    pub(crate) line: usize,
}

// Where the innermost of the open elements with this name stands, counted from the outermost.
pub(crate) fn innermost(elements: &[OpenElement], name: ExpandedName) -> Option<usize>
    ensures { IfSome result (λ i. i < length elements.now) }
{
    elements
        .iter()
        .rposition(|element| element.name.expanded() == name)
}

// What has the name.
#[derive(Clone, Copy)]
pub(crate) enum Item {
    Element,
    EndTag,
    Attribute,
}

impl From<ListedKind> for Item {
    fn from(kind: ListedKind) -> Item {
        match kind {
            ListedKind::Start | ListedKind::Empty => Item::Element,
            ListedKind::End => Item::EndTag,
        }
    }
}

impl fmt::Display for Item {
    fn fmt<W: fmt::Write>(&self, f: &mut fmt::Formatter<W>) -> fmt::Result {
        f.write_str(match self {
            Item::Element => "element",
            Item::EndTag => "end tag",
            Item::Attribute => "attribute",
        })
    }
}

// Where the namespace of a name comes from.
#[derive(Clone, Copy)]
pub(crate) enum Origin {
    Declared { line: usize },
    BuiltIn,
}

impl fmt::Display for Origin {
    fn fmt<W: fmt::Write>(&self, f: &mut fmt::Formatter<W>) -> fmt::Result {
        match self {
            Origin::Declared { line } => write!(f, "declared on line {line}"),
            Origin::BuiltIn => f.write_str("built in"),
        }
    }
}

// Why a name has no namespace.
#[derive(Clone, Copy)]
pub(crate) enum Absence {
    Undeclared { line: usize },
    Unbound,
    NoDefault,
    NoPrefix,
}

// A name with its namespace.
#[derive(Clone, Copy)]
pub(crate) struct Resolved {
    pub(crate) item: Item,
    pub(crate) name: QualName,
    pub(crate) origin: Result<Origin, Absence>,
    pub(crate) error: Option<ErrorCode>,
}

// What a tag sees: the open elements, the bindings in force there and its own.
#[derive(Clone, Copy)]
pub(crate) struct View<'a> {
    pub(crate) elements: &'a [OpenElement],
    pub(crate) scopes: &'a ScopeTable,
    pub(crate) bindings: &'a [Binding],
    pub(crate) line: usize,
}

impl View<'_> {
    // The tag itself has the row after those of the open elements.
    fn line_of(self, row: usize) -> usize {
        self.elements
            .get(row)
            .map_or(self.line, |element| element.line)
    }

    fn origin_of(self, lookup: Lookup) -> Result<Origin, Absence> {
        match lookup {
            Lookup::Declared(found) => {
                let line = self.line_of(found.row);
                match found.ns {
                    Some(_) => Ok(Origin::Declared { line }),
                    None => Err(Absence::Undeclared { line }),
                }
            }
            Lookup::BuiltIn(Name::EMPTY) => Err(Absence::NoDefault),
            Lookup::BuiltIn(_) => Ok(Origin::BuiltIn),
            Lookup::Unbound => Err(Absence::Unbound),
        }
    }

    pub(crate) fn resolve(self, item: Item, name: QualName) -> Resolved {
        let lookup = self.scopes.find_uri(self.bindings, name.prefix);
        let ns = lookup.namespace();
        Resolved {
            item,
            name: QualName { ns, ..name },
            origin: self.origin_of(lookup),
            error: lookup.error(name.prefix),
        }
    }

    // An attribute without a prefix has no namespace, and is not looked up.
    fn resolve_attribute(self, name: QualName) -> Resolved {
        let item = Item::Attribute;
        if name.prefix.is_some() {
            return self.resolve(item, name);
        }
        Resolved {
            item,
            name,
            origin: Err(Absence::NoPrefix),
            error: None,
        }
    }

    pub(crate) fn resolve_attributes(
        self,
        heap: Global,
        attrs: &[QualName],
    ) -> Result<Vec<Resolved>, AllocError> {
        attrs
            .iter()
            .map(|name| self.resolve_attribute(*name))
            .collect(heap)
    }
}

// A binding, and what a look-up of a prefix answers.
ghost use Rattle.std.specs.Prelude.{◌≡◌};
ghost use Rattle.scopes.specs.Lookups.{namespace_of, error_of};

use names::{ErrorCode, Name};

// A prefix and the namespace that it is bound to, or none where it is undeclared.
#[derive(Clone, Copy)]
pub struct Binding {
    pub prefix: Option<Name>,
    pub ns: Option<Name>,
}

// The binding that answered: `row` counts the open elements around the one that has it, and `place` the bindings
// before it there.
#[derive(Clone, Copy, Debug, PartialEq, Eq)]
pub struct Found {
    pub row: usize,
    pub place: usize,
    pub ns: Option<Name>,
}

// Where the namespace of a prefix comes from.
#[derive(Clone, Copy, Debug, PartialEq, Eq)]
pub enum Lookup {
    Declared(Found),
    BuiltIn(Name),
    Unbound,
}

impl Lookup {
    // The namespace: the empty one where the prefix is undeclared or not bound.
    pub fn namespace(self) -> Name
        ensures { result ≡ namespace_of self }
    {
        match self {
            Lookup::Declared(found) => found.ns.unwrap_or(Name::EMPTY),
            Lookup::BuiltIn(ns) => ns,
            Lookup::Unbound => Name::EMPTY,
        }
    }

    // The error of a name with this prefix: one that is there has to have a namespace.
    pub fn error(self, prefix: Option<Name>) -> Option<ErrorCode>
        ensures { result ≡ error_of prefix self }
    {
        if prefix.is_some() && self.namespace() == Name::EMPTY {
            Some(ErrorCode::UnboundPrefix)
        } else {
            None
        }
    }
}

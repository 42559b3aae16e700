// What the builder's table does.
ghost use Rattle.std.specs.Prelude.{◌≡◌, [], ◌∷◌, length};
ghost use Rattle.scopes.specs.Lookups.{built_in, declared_or, on_tag, look};
ghost use Rattle.scopes.specs.Scoping.{Scoped, OnlyScoped};
ghost use Rattle.scopes.specs.Tables.{rows_of};

use super::{MOST_BINDINGS, ScopeTable, find_in};
use crate::bindings::{Binding, Found, Lookup};
use crate::prefixes::is_reserved;
use names::Name;

// What a tag says of a prefix: nothing of `xml` and `xmlns`, whatever stands in it.
fn find_on_tag(row: usize, tag: &[Binding], prefix: Option<Name>) -> Option<Found>
    ensures { result ≡ on_tag row tag.now prefix }
{
    if is_reserved(prefix) {
        return None;
    }
    find_in(row, tag, prefix)
}

impl ScopeTable {
    // The built-in bindings alone: no element is open.
    pub fn new() -> ScopeTable
        ensures { rows_of result ≡ [] }
    {
        let no_prefix = Binding {
            prefix: None,
            ns: Some(Name::EMPTY),
        };
        let mut items = [no_prefix; MOST_BINDINGS];
        items[1] = Binding {
            prefix: Some(Name::XML),
            ns: Some(Name::XML_URI),
        };
        items[2] = Binding {
            prefix: Some(Name::XMLNS),
            ns: Some(Name::XMLNS_URI),
        };
        ScopeTable::above(items)
    }

    // What the built-in bindings say of a prefix.
    fn find_built_in(&self, prefix: Option<Name>) -> Lookup
        ensures { result ≡ built_in prefix }
    {
        match find_in(0, self.built_in(), prefix) {
            Some(found) => Lookup::BuiltIn(found.ns.unwrap_or(Name::EMPTY)),
            None => Lookup::Unbound,
        }
    }

    // What the open elements and the built-in bindings say of a prefix.
    #[tactic(auto, using(crate::proofs::Reserving::look_found))]
    fn find_open(&self, prefix: Option<Name>) -> Lookup
        ensures { result ≡ look (rows_of self.now) prefix }
    {
        match self.nearest(prefix) {
            Some(found) => Lookup::Declared(found),
            None => self.find_built_in(prefix),
        }
    }

    // The answer of the tag itself, else of the open elements, else of the built-in bindings.
    fn find_binding(&self, tag: &[Binding], prefix: Option<Name>) -> Lookup
        ensures { result ≡ declared_or (on_tag (length (rows_of self.now)) tag.now prefix) (look (rows_of self.now) prefix) }
    {
        match find_on_tag(self.row_count(), tag, prefix) {
            Some(found) => Lookup::Declared(found),
            None => self.find_open(prefix),
        }
    }

    // The binding that is in force for a prefix on a tag inside the open elements. `tag` has the declarations that were
    // accepted on the tag itself; one of them answers with the number of open elements for its row.
    pub fn find_uri(&self, tag: &[Binding], prefix: Option<Name>) -> Lookup
        ensures value { result ≡ look (tag.now ∷ rows_of self.now) prefix }
        ensures scoped { Scoped (tag.now ∷ rows_of self.now) prefix result }
        ensures only { OnlyScoped (tag.now ∷ rows_of self.now) prefix result }
    {
        self.find_binding(tag, prefix)
    }
}

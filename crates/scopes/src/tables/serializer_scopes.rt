// What the serializer's table does.
ghost use Rattle.std.specs.Prelude.{◌≡◌, []};
ghost use Rattle.scopes.specs.Rows.{nearest};
ghost use Rattle.scopes.specs.Scoping.{Answered};
ghost use Rattle.scopes.specs.Tables.{rows_of};

use super::{MOST_BINDINGS, SerializerScopes};
use crate::bindings::{Binding, Found};
use names::Name;

impl SerializerScopes {
    // No element is open, and nothing is bound.
    pub fn new() -> SerializerScopes
        ensures { rows_of result ≡ [] }
    {
        let blank = Binding {
            prefix: None,
            ns: None,
        };
        SerializerScopes::above([blank; MOST_BINDINGS])
    }

    // The binding of a prefix that is in force, if one was written.
    #[tactic(auto, using(crate::proofs::Relating::answered))]
    pub fn find(&self, prefix: Option<Name>) -> Option<Found>
        ensures value { result ≡ nearest (rows_of self.now) prefix }
        ensures scoped { Answered (rows_of self.now) prefix result }
    {
        self.nearest(prefix)
    }
}

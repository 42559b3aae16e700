// A test of a prefix.
ghost use Rattle.std.specs.Prelude.{◌≡◌};
ghost use Rattle.scopes.specs.Prefixes.{reserved};

use names::Name;

// Whether the prefix is one of the two that no declaration binds.
pub(crate) fn is_reserved(prefix: Option<Name>) -> bool
    ensures { result ≡ reserved prefix }
{
    matches!(prefix, Some(Name::XML | Name::XMLNS))
}

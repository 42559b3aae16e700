// Which attributes are declarations, and what comes of one.
ghost use Rattle.std.specs.Prelude.{◌≡◌};
ghost use Rattle.scopes.specs.Declarations.{declared_by, weighed, AcceptsUnreserved};
ghost use Rattle.scopes.specs.Rows.{binds};

use crate::bindings::Binding;
use names::{ErrorCode, Name, QualName, XML_URI, XMLNS_URI};

// An attribute that declares this prefix, or the default namespace.
#[derive(Clone, Copy)]
pub struct Declares(pub Option<Name>);

// What a declaration does that is accepted.
#[derive(Clone, Copy, Debug, PartialEq, Eq)]
pub enum Effect {
    Binds,
    Undeclares,
    Nothing,
}

// `xmlns:L` declares L, and `xmlns` without a prefix the absent prefix. All other attributes are ordinary ones.
pub fn declared_by(name: QualName) -> Option<Declares>
    ensures { result ≡ declared_by name }
{
    match name.prefix {
        Some(Name::XMLNS) => Some(Declares(Some(name.local))),
        None if name.local == Name::XMLNS => Some(Declares(None)),
        _ => None,
    }
}

// Whether a row has a binding of `prefix`.
fn is_bound(row: &[Binding], prefix: Option<Name>) -> bool
    ensures { result ≡ binds row.now prefix }
{
    row.iter().any(|binding| binding.prefix == prefix)
}

// The first line that fits decides.
#[tactic(auto, unfolding(names::specs::BuiltIn::xml_uri, names::specs::BuiltIn::xmlns_uri))]
fn verdict_of(tag: &[Binding], prefix: Option<Name>, value: &[u8]) -> Result<Effect, ErrorCode>
    ensures { result ≡ weighed tag.now prefix value.now }
{
    if value == XMLNS_URI {
        return Err(ErrorCode::XmlnsUriDeclared);
    }
    if prefix == Some(Name::XML) {
        return if value == XML_URI {
            Ok(Effect::Nothing)
        } else {
            Err(ErrorCode::XmlPrefixDeclared)
        };
    }
    if prefix == Some(Name::XMLNS) {
        return Err(ErrorCode::XmlnsPrefixDeclared);
    }
    if value == XML_URI {
        return Err(ErrorCode::XmlPrefixDeclared);
    }
    if is_bound(tag, prefix) {
        return Err(ErrorCode::DeclaredTwice);
    }
    if value.is_empty() {
        Ok(Effect::Undeclares)
    } else {
        Ok(Effect::Binds)
    }
}

// Weighs the declaration of `prefix` by its value: what it does, or the error that is noted. `tag` has the declarations
// of the same tag that were accepted before it.
#[tactic(auto, using(crate::proofs::Weighing::accepts))]
pub fn weigh(tag: &[Binding], prefix: Option<Name>, value: &[u8]) -> Result<Effect, ErrorCode>
    ensures value { result ≡ weighed tag.now prefix value.now }
    ensures unreserved { AcceptsUnreserved tag.now prefix value.now result }
{
    verdict_of(tag, prefix, value)
}

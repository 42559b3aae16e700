// Name numbers, and the qualified and expanded names that are made of them.
ghost use Rattle.std.specs.Prelude.{◌≡◌};
ghost use Rattle.names.specs.Names.{expanded_of};

// A name: the place of its text in a name table.
#[derive(Clone, Copy, Debug, PartialEq, Eq)]
pub struct Name(pub u16);

// The texts of the two namespaces that are bound in every document.
pub const XML_URI: &[u8] = b"http://www.w3.org/XML/1998/namespace";

pub const XMLNS_URI: &[u8] = b"http://www.w3.org/2000/xmlns/";

// The numbers that every table gives the built-in names.
impl Name {
    pub const EMPTY: Name = Name(0);

    pub const XML: Name = Name(1);

    pub const XMLNS: Name = Name(2);

    pub const SCRIPT: Name = Name(3);

    pub const XML_URI: Name = Name(4);

    pub const XMLNS_URI: Name = Name(5);
}

// A name as a tag has it. An absent prefix and a present one that is the empty text are two prefixes.
#[derive(Clone, Copy, PartialEq, Eq)]
pub struct QualName {
    pub prefix: Option<Name>,
    pub ns: Name,
    pub local: Name,
}

// What two names have to agree in to mean the same: a namespace and a local name.
#[derive(Clone, Copy, PartialEq, Eq)]
pub struct ExpandedName {
    pub ns: Name,
    pub local: Name,
}

impl QualName {
    // The name without its prefix.
    pub fn expanded(self) -> ExpandedName
        ensures { result ≡ expanded_of self }
    {
        ExpandedName {
            ns: self.ns,
            local: self.local,
        }
    }
}

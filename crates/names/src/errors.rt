// The errors that are noted while a document is read. None of them stops the reading.
ghost use Rattle.std.specs.Prelude.{◌≡◌};
ghost use Rattle.names.specs.Errors.{code_number};

// What is wrong with a document, by the number under which it is noted. No error has the number 5.
#[derive(Clone, Copy, PartialEq, Eq, PartialOrd, Ord)]
pub enum ErrorCode {
    TokenizerError = 0,
    XmlnsUriDeclared = 1,
    XmlPrefixDeclared = 2,
    XmlnsPrefixDeclared = 3,
    DeclaredTwice = 4,
    UnboundPrefix = 6,
    EndTagMismatch = 7,
    NoRootElement = 8,
    UnexpectedInStart = 9,
    UnexpectedInMain = 10,
    UnexpectedInEnd = 11,
    DuplicateAttribute = 12,
}

impl ErrorCode {
    // The number under which the error is noted.
    pub fn number(self) -> u8
        ensures { result ≡ code_number self }
    {
        self as u8
    }
}

// The tokens of an XML document, as a tokenizer hands them over.
use names::QualName;

#[derive(Clone, Copy)]
pub enum TagKind {
    Start,
    End,
    Empty,
    // `</>`, which closes the current element whatever its name.
    Short,
}

// A tag without its attributes. A short tag has no name: all three parts of it are empty or absent.
#[derive(Clone, Copy)]
pub struct Tag {
    pub kind: TagKind,
    pub name: QualName,
}

// A processing instruction.
#[derive(Clone, Copy)]
pub struct Pi<'t> {
    pub target: &'t [u8],
    pub data: &'t [u8],
}

#[derive(Clone, Copy)]
pub struct Doctype<'t> {
    pub name: Option<&'t [u8]>,
    pub public_id: Option<&'t [u8]>,
    pub system_id: Option<&'t [u8]>,
}

// The texts are parts of the tape's text, not copies. The attributes of a tag lie at the front of the table that the
// reader was lent, and the token says how many there are: a slice of them would keep that table lent.
#[derive(Clone, Copy)]
pub enum Token<'t> {
    Tag { tag: Tag, count: usize },
    Comment(&'t [u8]),
    Characters(&'t [u8]),
    ProcessingInstruction(Pi<'t>),
    Doctype(Doctype<'t>),
    NullCharacter,
    EndOfFile,
    ParseError(&'t [u8]),
}

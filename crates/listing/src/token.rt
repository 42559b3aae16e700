// The tokens that a listing holds. They have their texts, where those of a tape have the numbers of a name table.
use std::fmt;

#[derive(Clone, Copy, Debug, PartialEq, Eq)]
pub enum ListedKind {
    Start,
    End,
    Empty,
}

// The keyword of such a tag.
impl fmt::Display for ListedKind {
    ghost use Rattle.std.specs.Prelude.{Some};
    ghost use Rattle.listing.specs.Kinds.{keyword};

    ghost output = { λ kind. Some (keyword kind) };

    fn fmt<W: fmt::Write>(&self, f: &mut fmt::Formatter<W>) -> fmt::Result {
        f.write_str(match self {
            ListedKind::Start => "start",
            ListedKind::End => "end",
            ListedKind::Empty => "empty",
        })
    }
}

// An absent prefix and an empty one are two things, so the prefix is an option.
#[derive(Drop)]
pub struct ListedName {
    pub prefix: Option<Vec<u8>>,
    pub local: Vec<u8>,
}

#[derive(Drop)]
pub struct ListedAttribute {
    pub name: ListedName,
    pub value: Vec<u8>,
}

#[derive(Drop)]
pub struct ListedTag {
    pub kind: ListedKind,
    pub name: ListedName,
    pub attrs: Vec<ListedAttribute>,
}

#[derive(Drop)]
pub enum ListedToken {
    Tag(ListedTag),
    ShortTag,
    Comment(Vec<u8>),
    Characters(Vec<u8>),
    Instruction {
        target: Vec<u8>,
        data: Vec<u8>,
    },
    Doctype {
        name: Option<Vec<u8>>,
        public: Option<Vec<u8>>,
        system: Option<Vec<u8>>,
    },
    NullCharacter,
    EndOfFile,
    Error(Vec<u8>),
}

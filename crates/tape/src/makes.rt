// Makes a token of words that were found right.
ghost use Rattle.std.specs.Prelude.{◌≡◌, ◌+◌, ◌*◌, ◌≤◌, false, length};
ghost use Rattle.names.specs.Table.{texts};
ghost use Rattle.tape.specs.Scans.{part_count};
ghost use Rattle.tape.specs.Tokens.{crowded, tag_made, token_made, made_of};

use crate::entering::{enter_attributes, enter_name};
use crate::parts::Parts;
use crate::tokens::{Doctype, Pi, Tag, TagKind, Token};
use crate::words::Head;
use names::{Attribute, Name, NameFault, NameTable, QualName, Span};

// How many attributes a tag may have.
pub const MOST_ATTRIBUTES: usize = 32;

const NO_NAME: QualName = QualName {
    prefix: None,
    ns: Name::EMPTY,
    local: Name::EMPTY,
};

const BLANK: Attribute = Attribute {
    name: NO_NAME,
    value: Span { start: 0, len: 0 },
};

// Whether a tag has more attributes than a tag may have, or than there is room for.
pub(crate) fn is_crowded(head: Head, room: usize) -> bool
    ensures { result ≡ crowded head room }
{
    matches!(head, Head::Tag(_, count) if count > MOST_ATTRIBUTES || count > room)
}

// The name table and the attribute table are lent side by side: one struct of both would have every contract say which
// of its two loans it leaves alone.

// A tag with its attributes. The names are all entered before the table is written to, so that one that is refused leaves
// it as it was. Until then the attributes stand in an array, since the reader has no heap.
fn make_tag<'t>(
    kind: TagKind,
    count: usize,
    parts: &mut Parts,
    names: &mut NameTable,
    attrs: &mut [Attribute],
) -> Result<Token<'t>, NameFault>
    requires words { length parts.old.words ≡ 2 + 3 * count }
    requires few { count ≤ MOST_ATTRIBUTES }
    requires room { count ≤ length attrs.old }
    ensures { let p = parts.old in made_of result (texts names.new) attrs.new
        ≡ tag_made kind p.words p.text p.at (texts names.old) attrs.old }
{
    let name = enter_name(names, parts)?;
    let mut records = [BLANK; MOST_ATTRIBUTES];
    enter_attributes(names, parts, &mut records[..count])?;
    attrs[..count].copy_from_slice(&records[..count]);
    Ok(Token::Tag {
        tag: Tag { kind, name },
        count,
    })
}

// The token that the parts make behind a word that says `head`. Only a tag enters names, and only a tag writes to the
// table.
pub(crate) fn make_token<'t>(
    head: Head,
    mut parts: Parts<'_, 't>,
    names: &mut NameTable,
    attrs: &mut [Attribute],
) -> Result<Token<'t>, NameFault>
    requires words { length parts.words ≡ part_count head }
    requires few { crowded head (length attrs.old) ≡ false }
    ensures { let p = parts.entry in made_of result (texts names.new) attrs.new
        ≡ token_made head p.words p.text p.at (texts names.old) attrs.old }
{
    Ok(match head {
        Head::Tag(kind, count) => make_tag(kind, count, &mut parts, names, attrs)?,
        Head::ShortTag => Token::Tag {
            tag: Tag {
                kind: TagKind::Short,
                name: NO_NAME,
            },
            count: 0,
        },
        Head::Comment => Token::Comment(parts.next_text()),
        Head::Characters => Token::Characters(parts.next_text()),
        Head::Instruction => Token::ProcessingInstruction(Pi {
            target: parts.next_text(),
            data: parts.next_text(),
        }),
        Head::Doctype => Token::Doctype(Doctype {
            name: parts.next_maybe_text(),
            public_id: parts.next_maybe_text(),
            system_id: parts.next_maybe_text(),
        }),
        Head::NullCharacter => Token::NullCharacter,
        Head::EndOfFile => Token::EndOfFile,
        Head::Error => Token::ParseError(parts.next_text()),
    })
}

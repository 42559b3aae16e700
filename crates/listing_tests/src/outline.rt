// Writes what a line was read as, in a notation of the tests' own, so that a table can hold it.
use listing::{
    ListedAttribute, ListedName, ListedTag, ListedToken, ListingFault, Shown, read_token,
};
use std::alloc::Global;
use std::fmt;

// A present prefix stands in braces, so that an empty one is seen.
#[derive(Clone, Copy)]
struct NameOutline<'a>(&'a ListedName);

impl fmt::Display for NameOutline<'_> {
    fn fmt<W: fmt::Write>(&self, f: &mut fmt::Formatter<W>) -> fmt::Result {
        let local = Shown(self.0.local.as_slice());
        match &self.0.prefix {
            Some(prefix) => {
                let prefix = Shown(prefix.as_slice());
                write!(f, "{{{prefix}}}{local}")
            }
            None => write!(f, "{local}"),
        }
    }
}

#[derive(Clone, Copy)]
struct PartOutline<'a>(&'a Option<Vec<u8>>);

impl fmt::Display for PartOutline<'_> {
    fn fmt<W: fmt::Write>(&self, f: &mut fmt::Formatter<W>) -> fmt::Result {
        match self.0 {
            Some(part) => {
                let part = Shown(part.as_slice());
                write!(f, "({part})")
            }
            None => f.write_str("none"),
        }
    }
}

fn write_attributes<W: fmt::Write>(
    attrs: &[ListedAttribute],
    f: &mut fmt::Formatter<W>,
) -> fmt::Result {
    for attr in attrs {
        let name = NameOutline(&attr.name);
        let value = Shown(attr.value.as_slice());
        write!(f, " {name}=({value})")?;
    }
    Ok(())
}

fn write_tag<W: fmt::Write>(tag: &ListedTag, f: &mut fmt::Formatter<W>) -> fmt::Result {
    let kind = tag.kind;
    let name = NameOutline(&tag.name);
    write!(f, "{kind} <{name}>")?;
    write_attributes(tag.attrs.as_slice(), f)
}

fn write_text<W: fmt::Write>(what: &str, text: &[u8], f: &mut fmt::Formatter<W>) -> fmt::Result {
    let text = Shown(text);
    write!(f, "{what} ({text})")
}

#[derive(Clone, Copy)]
struct TokenOutline<'a>(&'a ListedToken);

impl fmt::Display for TokenOutline<'_> {
    fn fmt<W: fmt::Write>(&self, f: &mut fmt::Formatter<W>) -> fmt::Result {
        match self.0 {
            ListedToken::Tag(tag) => write_tag(tag, f),
            ListedToken::ShortTag => f.write_str("short tag"),
            ListedToken::Comment(text) => write_text("comment", text.as_slice(), f),
            ListedToken::Characters(text) => write_text("characters", text.as_slice(), f),
            ListedToken::Instruction { target, data } => {
                write_text("target", target.as_slice(), f)?;
                write_text(" data", data.as_slice(), f)
            }
            ListedToken::Doctype {
                name,
                public,
                system,
            } => {
                let name = PartOutline(name);
                let public = PartOutline(public);
                let system = PartOutline(system);
                write!(f, "doctype {name} {public} {system}")
            }
            ListedToken::NullCharacter => f.write_str("null character"),
            ListedToken::EndOfFile => f.write_str("end of file"),
            ListedToken::Error(text) => write_text("error", text.as_slice(), f),
        }
    }
}

pub(crate) fn outline(heap: Global, line: &[u8]) -> Result<String, ListingFault> {
    match read_token(heap, line) {
        Ok(Some(token)) => {
            let token = TokenOutline(&token);
            Ok(format!(in heap; "{token}")?)
        }
        Ok(None) => Ok(String::from_str(heap, "skipped")?),
        Err(ListingFault::Expected(expected)) => Ok(format!(in heap; "expected {expected}")?),
        Err(memory) => Err(memory),
    }
}

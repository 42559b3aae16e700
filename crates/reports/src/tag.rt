// A tag whose names have their numbers, and its declarations weighed.
use crate::stop::Stop;
use listing::{ListedAttribute, ListedKind, ListedName, ListedTag};
use names::{ErrorCode, Name, NameFault, NameTable, QualName};
use scopes::{Binding, Declares, Effect, declared_by, weigh};
use std::alloc::Global;

#[derive(Drop)]
pub(crate) struct Declaration {
    pub(crate) name: QualName,
    pub(crate) prefix: Option<Name>,
    pub(crate) value: Vec<u8>,
}

// No name has its namespace yet.
#[derive(Drop)]
pub(crate) struct Tag {
    pub(crate) kind: ListedKind,
    pub(crate) name: QualName,
    pub(crate) declarations: Vec<Declaration>,
    pub(crate) attrs: Vec<QualName>,
}

fn enter_name(names: &mut NameTable, name: &ListedName) -> Result<QualName, NameFault> {
    names.enter_name(name.prefix.as_deref(), name.local.as_slice())
}

impl Tag {
    // Enters the names of a tag as they come: its own, and then those of each attribute.
    pub(crate) fn enter(
        heap: Global,
        names: &mut NameTable,
        listed: ListedTag,
    ) -> Result<Tag, Stop> {
        let ListedTag { kind, name, attrs } = listed;
        let mut tag = Tag {
            kind,
            name: enter_name(names, &name)?,
            declarations: Vec::new(heap),
            attrs: Vec::new(heap),
        };
        for attr in attrs {
            tag.enter_attribute(names, attr)?;
        }
        Ok(tag)
    }

    fn enter_attribute(
        &mut self,
        names: &mut NameTable,
        attr: ListedAttribute,
    ) -> Result<(), Stop> {
        let ListedAttribute { name, value } = attr;
        let name = enter_name(names, &name)?;
        match declared_by(name) {
            Some(Declares(prefix)) => {
                self.declarations.push(Declaration {
                    name,
                    prefix,
                    value,
                })?;
            }
            None => self.attrs.push(name)?,
        }
        Ok(())
    }
}

// A declaration and what comes of it.
#[derive(Drop)]
pub(crate) struct Weighed {
    pub(crate) declaration: Declaration,
    pub(crate) verdict: Result<Effect, ErrorCode>,
}

// The declarations of a tag, and the bindings that come of them.
#[derive(Drop)]
pub(crate) struct Declared {
    pub(crate) weighed: Vec<Weighed>,
    pub(crate) bindings: Vec<Binding>,
}

impl Declared {
    pub(crate) fn weigh_all(
        heap: Global,
        names: &mut NameTable,
        declarations: Vec<Declaration>,
    ) -> Result<Declared, Stop> {
        let mut declared = Declared {
            weighed: Vec::new(heap),
            bindings: Vec::new(heap),
        };
        for declaration in declarations {
            declared.weigh(names, declaration)?;
        }
        Ok(declared)
    }

    fn weigh(&mut self, names: &mut NameTable, declaration: Declaration) -> Result<(), Stop> {
        let prefix = declaration.prefix;
        let value = declaration.value.as_slice();
        let verdict = weigh(self.bindings.as_slice(), prefix, value);
        match verdict {
            Ok(Effect::Binds) => {
                let ns = Some(names.enter(value)?);
                self.bindings.push(Binding { prefix, ns })?;
            }
            Ok(Effect::Undeclares) => self.bindings.push(Binding { prefix, ns: None })?,
            Ok(Effect::Nothing) | Err(_) => {}
        }
        self.weighed.push(Weighed {
            declaration,
            verdict,
        })?;
        Ok(())
    }
}

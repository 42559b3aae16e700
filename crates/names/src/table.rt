// The table in which each text has one number.
ghost use Rattle.std.specs.Prelude.{◌≡◌, ◌+◌, ◌<◌, ◌≤◌, true, length, IfOk, Some, None};
ghost use Rattle.std.specs.Option.{option_map};
ghost use Rattle.names.specs.BuiltIn.{built_in};
ghost use Rattle.names.specs.Entering.{name_entered};
ghost use Rattle.names.specs.Held.{held};
ghost use Rattle.names.specs.Names.{numbered};
ghost use Rattle.names.specs.Texts.{begins, seek, text_at, fits, entered, after, NumberOf, KeepsNumbers};

use crate::qualified::{Name, QualName, XML_URI, XMLNS_URI};
use crate::refusals::NameFault;
use crate::store::{MOST_BYTES, MOST_NAMES, TextStore};
use std::alloc::{AllocError, Global};

// Every table begins with the six built-in names, and no text stands in it twice, as in every store. It has no model:
// that would hide `known` and the store's facts, which hold of every table that a caller has.
#[derive(Drop)]
pub struct NameTable {
    store: TextStore,
    ghost known: { begins built_in (held store) ≡ true },
}

// The texts that every table begins with, in the order of their numbers.
#[tactic(auto, unfolding(crate::specs::BuiltIn::built_in, crate::specs::BuiltIn::xml_uri, crate::specs::BuiltIn::xmlns_uri))]
fn built_in_names(heap: Global) -> Result<TextStore, AllocError>
    ensures { IfOk result (λ s. held s ≡ built_in) }
{
    let mut store = TextStore::new(heap)?;
    store.push(b"");
    store.push(b"xml");
    store.push(b"xmlns");
    store.push(b"script");
    store.push(XML_URI);
    store.push(XMLNS_URI);
    Ok(store)
}

// The number of the next name, of `len` bytes, beside `held` names of `bytes` bytes, if the limits allow it.
fn next_name(held: usize, bytes: usize, len: usize) -> Result<Name, NameFault>
    requires { bytes ≤ 16384 }
    ensures value { result ≡ fits held bytes len }
    ensures room { IfOk result (λ n. (n ≡ numbered held) × (held < 512) × (bytes + len ≤ 16384)) }
{
    if held >= MOST_NAMES {
        return Err(NameFault::TooManyNames { held });
    }
    if len > MOST_BYTES - bytes {
        return Err(NameFault::TooManyBytes { held });
    }
    Ok(Name(held as u16))
}

impl NameTable {
    ghost use Rattle.names.specs.Table.{texts};

    // A table of the six built-in names. It takes all the memory that it will ever use.
    #[tactic(auto, unfolding(crate::specs::BuiltIn::built_in, crate::specs::BuiltIn::xml_uri, crate::specs::BuiltIn::xmlns_uri))]
    pub fn new(heap: Global) -> Result<NameTable, AllocError>
        ensures { IfOk result (λ t. texts t ≡ built_in) }
    {
        let store = built_in_names(heap)?;
        Ok(NameTable { store })
    }

    // How many names the table holds.
    pub fn len(&self) -> usize
        ensures { result ≡ length (texts self.now) }
    {
        self.store.len()
    }

    // The number of a text, if the table holds it.
    #[tactic(auto, using(crate::proofs::Seeking::number_of))]
    pub fn find(&self, text: &[u8]) -> Option<Name>
        ensures value { result ≡ seek 0 (texts self.now) text.now }
        ensures number { NumberOf (texts self.now) text.now result }
    {
        self.store.find(text)
    }

    // The text of a number, if the table has gone so far.
    pub fn text(&self, name: Name) -> Option<&[u8]>
        ensures value { option_map (λ x. x.now) result ≡ text_at (texts self.now) name.0 }
        ensures built_in { begins built_in (texts self.now) ≡ true }
    {
        self.store.text(name.0 as usize)
    }

    // The number of a text, which is entered if it is new. A text that the table holds is never refused.
    pub fn enter(&mut self, text: &[u8]) -> Result<Name, NameFault>
        ensures result { result ≡ entered (texts self.old) text.now }
        ensures after { texts self.new ≡ after (texts self.old) text.now }
        ensures stands { IfOk result (λ n. text_at (texts self.new) n.0 ≡ Some text.now) }
        ensures numbers { KeepsNumbers (texts self.old) (texts self.new) }
    {
        match self.find(text) {
            Some(name) => Ok(name),
            None => self.append(text),
        }
    }

    // The numbers of a prefix, which may be absent, and of the local name behind it, entered in this order. The namespace
    // is not known yet, and stands at the empty one.
    pub fn enter_name(&mut self, prefix: Option<&[u8]>, local: &[u8]) -> Result<QualName, NameFault>
        ensures { (texts self.new, result)
            ≡ name_entered (texts self.old) (option_map (λ x. x.now) prefix.entry) local.now }
    {
        // Not `map`: of a closure that enters, a proof would not know what it leaves.
        let prefix = match prefix {
            Some(text) => Some(self.enter(text)?),
            None => None,
        };
        let local = self.enter(local)?;
        Ok(QualName {
            prefix,
            ns: Name::EMPTY,
            local,
        })
    }

    // Enters a text that the table does not hold.
    #[tactic(auto, using(crate::proofs::Seeking::none_contained, crate::proofs::Seeking::begins_push))]
    fn append(&mut self, text: &[u8]) -> Result<Name, NameFault>
        requires { None ≡ seek 0 (texts self.old) text.now }
        ensures result { result ≡ entered (texts self.old) text.now }
        ensures after { texts self.new ≡ after (texts self.old) text.now }
    {
        let name = next_name(self.len(), self.store.bytes(), text.len())?;
        self.store.push(text);
        Ok(name)
    }
}

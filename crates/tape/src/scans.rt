// Goes over the words of a token, each of which has to be there and to be of the right kind. Nothing else is weighed.
ghost use Rattle.std.specs.Prelude.{◌≡◌, ◌+◌, List, ◌∷◌, ◌++◌, length, IfOk};
ghost use Rattle.tape.specs.Scans.{attribute_slots, tag_slots, slots_of, after, onward, rest_of, part_count, scanned, scan_of};
ghost use Rattle.tape.specs.declared.words.Slot.{Slot};

use crate::faults::TapeCause;
use crate::words::{Head, Slot};

// The words that name a tag, and those of one attribute: prefix, local name and value.
const NAME: [Slot; 2] = [Slot::Optional, Slot::Text];

const ATTRIBUTE: [Slot; 3] = [Slot::Optional, Slot::Text, Slot::Text];

// The words of a token taken apart: what the first says, those that stand for its texts, and those after the token.
#[derive(Clone, Copy)]
pub(crate) struct Scanned<'w> {
    pub(crate) head: Head,
    pub(crate) words: &'w [u32],
    pub(crate) rest: &'w [u32],
}

// The words after the one that fills the slot.
fn skip_slot(words: &[u32], slot: Slot) -> Result<&[u32], TapeCause>
    ensures { (more : List Slot) → after (slot ∷ more) words.now ≡ onward result more }
{
    let [word, rest @ ..] = words else {
        return Err(TapeCause::NoWord);
    };
    if !slot.takes(*word) {
        return Err(TapeCause::WrongWord);
    }
    Ok(rest)
}

// The words after those that fill the slots.
fn skip_slots<'w>(words: &'w [u32], slots: &[Slot]) -> Result<&'w [u32], TapeCause>
    ensures value { rest_of result ≡ after slots.now words.now }
    ensures more { (more : List Slot) → after (slots.now ++ more) words.now ≡ onward result more }
{
    let mut rest = words;
    for slot in slots {
        rest = skip_slot(rest, *slot)?;
    }
    Ok(rest)
}

// The words after those of some attributes. However many are announced, it ends with the words. Of a fold over the count
// the proof would not know which words each step leaves.
#[tactic(auto, using(crate::proofs::Scanning::one_attribute))]
fn skip_attributes(words: &[u32], count: usize) -> Result<&[u32], TapeCause>
    ensures { rest_of result ≡ after (attribute_slots count) words.now }
{
    let mut rest = words;
    for _ in 0..count {
        rest = skip_slots(rest, &ATTRIBUTE)?;
    }
    Ok(rest)
}

fn skip_tag(words: &[u32], count: usize) -> Result<&[u32], TapeCause>
    ensures { rest_of result ≡ after (tag_slots count) words.now }
{
    let rest = skip_slots(words, &NAME)?;
    skip_attributes(rest, count)
}

// The words after those that have to follow the first.
#[tactic(auto, using(crate::proofs::Scanning::parts_length))]
fn skip_parts(words: &[u32], head: Head) -> Result<&[u32], TapeCause>
    ensures value { rest_of result ≡ after (slots_of head) words.now }
    ensures size { IfOk result (λ rest. length words.now ≡ part_count head + length rest.now) }
{
    match head {
        Head::Tag(_, count) => skip_tag(words, count),
        Head::ShortTag | Head::NullCharacter | Head::EndOfFile => Ok(words),
        Head::Comment | Head::Characters | Head::Error => skip_slots(words, &[Slot::Text]),
        Head::Instruction => skip_slots(words, &[Slot::Text; 2]),
        Head::Doctype => skip_slots(words, &[Slot::Optional; 3]),
    }
}

// Takes the words of the first token apart.
pub(crate) fn scan(words: &[u32]) -> Result<Scanned<'_>, TapeCause>
    ensures value { scan_of result ≡ scanned words.now }
    ensures sizes { IfOk result (λ s. length s.words.now ≡ part_count s.head) }
    ensures whole { IfOk result (λ s. length words.now ≡ 1 + length s.words.now + length s.rest.now) }
{
    let [first, others @ ..] = words else {
        return Err(TapeCause::NoWord);
    };
    let head = Head::try_from(*first)?;
    let rest = skip_parts(others, head)?;
    Ok(Scanned {
        head,
        words: &others[..others.len() - rest.len()],
        rest,
    })
}

// Different texts one after another, with room for all from the start.
ghost use Rattle.std.specs.Prelude.{◌≡◌, ◌+◌, ◌<◌, ◌≤◌, true, false, [], ◌∷◌, ◌++◌, length, vec_len, vec_capacity, IfOk};
ghost use Rattle.std.specs.Option.{option_map};
ghost use Rattle.names.specs.Cuts.{chained, cuts, start_of};
ghost use Rattle.names.specs.Texts.{seek, contains, distinct, total, text_at};

use crate::qualified::Name;
use std::alloc::{AllocError, Global};

// How many texts a store takes, and how many bytes they may have together.
pub(crate) const MOST_NAMES: usize = 512;

pub(crate) const MOST_BYTES: usize = 16384;

// The bytes of the texts, and where each text ends. No text stands there twice. A vector for each text would take memory
// with each new name, and all memory is taken at the start.
#[derive(Drop)]
pub(crate) struct TextStore {
    bytes: Vec<u8>,
    ends: Vec<usize>,
    ghost chain: { chained 0 ends.items (vec_len bytes) ≡ true },
    ghost few: { vec_len ends ≤ 512 },
    ghost short: { vec_len bytes ≤ 16384 },
    ghost slots: { 512 ≤ vec_capacity ends },
    ghost room: { 16384 ≤ vec_capacity bytes },
    ghost apart: { distinct (cuts 0 ends.items bytes.items) ≡ true },
}

// Where the text with the number `i` begins: where the one before it ends.
fn start_of(ends: &[usize], i: usize) -> usize
    requires { i < length ends.now }
    ensures { result ≡ start_of 0 ends.now i }
{
    match i {
        0 => 0,
        _ => ends[i - 1],
    }
}

impl TextStore {
    ghost use Rattle.names.specs.Held.{held};

    // A store without a text. It takes all the memory that it will ever use.
    pub(crate) fn new(heap: Global) -> Result<TextStore, AllocError>
        ensures { IfOk result (λ s. held s ≡ []) }
    {
        let bytes = Vec::with_capacity(heap, MOST_BYTES)?;
        let ends = Vec::with_capacity(heap, MOST_NAMES)?;
        Ok(TextStore { bytes, ends })
    }

    // How many texts there are.
    #[tactic(auto, using(crate::proofs::Storing::count))]
    pub(crate) fn len(&self) -> usize
        ensures { result ≡ length (held self.now) }
    {
        self.ends.len()
    }

    // How many bytes are used.
    #[tactic(auto, using(crate::proofs::Storing::used))]
    pub(crate) fn bytes(&self) -> usize
        ensures value { result ≡ total (held self.now) }
        ensures bound { result ≤ 16384 }
    {
        self.bytes.len()
    }

    // The number of the text that equals `text`.
    pub(crate) fn find(&self, text: &[u8]) -> Option<Name>
        ensures { result ≡ seek 0 (held self.now) text.now }
    {
        // Each text begins where the one before it ends, which no closure of a search could keep.
        let mut start = 0;
        for (i, &end) in self.ends.iter().enumerate() {
            if &self.bytes[start..end] == text {
                return Some(Name(i as u16));
            }
            start = end;
        }
        None
    }

    // The text with the number `i`, if there is one.
    pub(crate) fn text(&self, i: usize) -> Option<&[u8]>
        ensures { option_map (λ x. x.now) result ≡ text_at (held self.now) i }
    {
        if i >= self.ends.len() {
            return None;
        }
        let start = start_of(self.ends.as_slice(), i);
        let end = self.ends[i];
        Some(&self.bytes[start..end])
    }

    // Adds a text that is not there yet, and for which there is room.
    pub(crate) fn push(&mut self, text: &[u8])
        requires few { length (held self.old) < 512 }
        requires new { contains (held self.old) text.now ≡ false }
        requires short { total (held self.old) + length text.now ≤ 16384 }
        ensures { held self.new ≡ held self.old ++ text.now ∷ [] }
    {
        let end = self.bytes.len() + text.len();
        // the memory is there, so this cannot fail
        let _ = self.bytes.extend_from_slice(text);
        self.ends.push_reserved(end);
    }
}

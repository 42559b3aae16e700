// Where a reader of a tape stands.
ghost use Rattle.std.specs.Prelude.{◌≡◌, ◌+◌, ◌^◌, ◌<◌, ◌≤◌, length};

// The words that are left with the index of the first of them, and the text with the place at which its next part
// begins. It is copied and holds references, so it cannot have a model.
#[derive(Clone, Copy)]
pub struct Tape<'w, 't> {
    pub(crate) words: &'w [u32],
    pub(crate) index: usize,
    pub(crate) text: &'t [u8],
    pub(crate) position: usize,
    ghost counted: { index + length words.now < 2 ^ 64 },
    ghost within: { position ≤ length text.now },
}

impl<'w, 't> Tape<'w, 't> {
    ghost use Rattle.tape.specs.Cursors.{cursor_of, at_start, is_at_end};

    // A tape from its first word on, and its text from the start.
    pub fn new(words: &'w [u32], text: &'t [u8]) -> Tape<'w, 't>
        ensures { cursor_of result ≡ at_start words.now text.now }
    {
        Tape {
            words,
            index: 0,
            text,
            position: 0,
        }
    }

    // Whether no word is left.
    pub fn is_at_end(self) -> bool
        ensures { result ≡ is_at_end (cursor_of self.entry) }
    {
        self.words.is_empty()
    }

    // How many words were read: the index of the next one.
    pub fn index(self) -> usize
        ensures { result ≡ (cursor_of self.entry).index }
    {
        self.index
    }

    // How many bytes of the text were read: the place of the next one.
    pub fn position(self) -> usize
        ensures { result ≡ (cursor_of self.entry).position }
    {
        self.position
    }
}

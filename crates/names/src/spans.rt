// Places in a text, and attributes whose values lie there.
ghost use Rattle.std.specs.Prelude.{◌≡◌, length};
ghost use Rattle.names.specs.Spans.{inside};

use crate::qualified::QualName;

// `len` bytes of a text, from `start` on.
#[derive(Clone, Copy)]
pub struct Span {
    pub start: usize,
    pub len: usize,
}

// An attribute of a tag: its name, and where its value stands.
#[derive(Clone, Copy)]
pub struct Attribute {
    pub name: QualName,
    pub value: Span,
}

impl Span {
    // Whether all of the span lies in `text`. The sum is not taken, so that it cannot wrap.
    pub fn lies_in(self, text: &[u8]) -> bool
        ensures { result ≡ inside self (length text.now) }
    {
        self.start <= text.len() && self.len <= text.len() - self.start
    }
}

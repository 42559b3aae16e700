// The texts that the words of a token stand for.
ghost use Rattle.std.specs.Prelude.{◌≡◌, ◌+◌, ◌≤◌, length, slice_index};
ghost use Rattle.std.specs.Option.{option_map};
ghost use Rattle.tape.specs.Words.{payload_of};
ghost use Rattle.tape.specs.Parts.{total, text_end, text_of, maybe_text, PartsLeft, passed};

use crate::words::{is_text, payload_of};
use names::Span;
use std::marker::Model;

// The words that are left of a token's parts, and the place in the text where their texts begin, one after another.
#[derive(Drop)]
pub(crate) struct Parts<'w, 't> {
    pub(crate) words: &'w [u32],
    pub(crate) text: &'t [u8],
    pub(crate) at: usize,
}

impl<'w, 't> Model for Parts<'w, 't> {
    ghost Value = { PartsLeft };

    ghost view = { λ p. record { words = p.words.now; text = p.text.now; at = p.at } };

    ghost invariant = { λ p. p.at + total p.words.now ≤ length p.text.now };
}

impl<'w, 't> Parts<'w, 't> {
    // The place of the next text.
    pub(crate) fn next_span(&mut self) -> Span
        requires { 1 ≤ length self.old.words }
        ensures span { result ≡ record { start = self.old.at; len = payload_of (slice_index self.old.words 0) } }
        ensures inside { result.start + result.len ≤ length self.old.text }
        ensures passed { self.new ≡ passed self.old }
    {
        let [word, rest @ ..] = self.words else {
            unreachable!()
        };
        let span = Span {
            start: self.at,
            len: payload_of(*word),
        };
        self.words = rest;
        self.at += span.len;
        span
    }

    // The next text.
    pub(crate) fn next_text(&mut self) -> &'t [u8]
        requires { 1 ≤ length self.old.words }
        ensures text { result.now ≡ text_of self.old.text self.old.at (slice_index self.old.words 0) }
        ensures passed { self.new ≡ passed self.old }
    {
        let Span { start, len } = self.next_span();
        &self.text[start..start + len]
    }

    // The next text, which may be absent.
    pub(crate) fn next_maybe_text(&mut self) -> Option<&'t [u8]>
        requires { 1 ≤ length self.old.words }
        ensures text { option_map (λ x. x.now) result ≡ maybe_text self.old.text self.old.at (slice_index self.old.words 0) }
        ensures passed { self.new ≡ passed self.old }
    {
        let word = self.words[0];
        let text = self.next_text();
        is_text(word).then_some(text)
    }
}

// Where the texts of the words end that begin at `position` in a text of `len` bytes, if they all lie in it. No sum is
// taken before it is known to lie there.
pub(crate) fn end_of_texts(words: &[u32], position: usize, len: usize) -> Option<usize>
    requires { position ≤ len }
    ensures { result ≡ text_end words.now position len }
{
    let mut end = position;
    for word in words {
        let size = payload_of(*word);
        if size > len - end {
            return None;
        }
        end += size;
    }
    Some(end)
}

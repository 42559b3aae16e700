// Reads the next token of a tape.
ghost use Rattle.std.specs.Prelude.{◌≡◌};
ghost use Rattle.names.specs.Table.{texts};
ghost use Rattle.tape.specs.Cursors.{cursor_of};
ghost use Rattle.tape.specs.Reading.{taken, read_token, reading_of};

use crate::cursor::Tape;
use crate::faults::{TapeCause, TapeFault};
use crate::makes::{is_crowded, make_token};
use crate::parts::{Parts, end_of_texts};
use crate::scans::{Scanned, scan};
use crate::tokens::Token;
use names::{Attribute, NameTable};

impl<'t> Tape<'_, 't> {
    // The words come first, then the number of attributes, then the texts. Names are entered last, and only if all else
    // is right.
    fn take_token(
        &mut self,
        names: &mut NameTable,
        attrs: &mut [Attribute],
    ) -> Result<Token<'t>, TapeCause>
        ensures { reading_of result (cursor_of self.new) (texts names.new) attrs.new
            ≡ taken (cursor_of self.old) (texts names.old) attrs.old }
    {
        let Scanned { head, words, rest } = scan(self.words)?;
        if is_crowded(head, attrs.len()) {
            return Err(TapeCause::TooManyAttributes);
        }
        let end = end_of_texts(words, self.position, self.text.len()).ok_or(TapeCause::PastText)?;
        let parts = Parts {
            words,
            text: self.text,
            at: self.position,
        };
        let token = make_token(head, parts, names, attrs)?;
        self.words = rest;
        self.index += 1 + words.len();
        self.position = end;
        Ok(token)
    }

    // The next token, behind which the tape then stands. The attributes of a tag are written to the front of `attrs`. A
    // read that is refused leaves the tape and `attrs` as they were, and of the name table all but the names that were
    // entered before the one that did not fit.
    pub fn read_token(
        &mut self,
        names: &mut NameTable,
        attrs: &mut [Attribute],
    ) -> Result<Token<'t>, TapeFault>
        ensures { reading_of result (cursor_of self.new) (texts names.new) attrs.new
            ≡ read_token (cursor_of self.old) (texts names.old) attrs.old }
    {
        let at = self.index;
        self.take_token(names, attrs)
            .map_err(|cause| TapeFault { at, cause })
    }
}

// What one word of a tape says: its top 4 bits are its kind, and the 28 below are its payload.
ghost use Rattle.std.specs.Prelude.{◌≡◌, ◌<◌};
ghost use Rattle.tape.specs.Words.{kind_of, payload_of, is_text, takes, head_of};

use crate::faults::TapeCause;
use crate::tokens::TagKind;

// The kinds of the words that follow the first of a token: a text, and one that is absent.
const TEXT: u32 = 14;

const NO_TEXT: u32 = 15;

// What the first word of a token says: which token it is, and for a tag how many attributes it has.
#[derive(Clone, Copy)]
pub(crate) enum Head {
    Tag(TagKind, usize),
    ShortTag,
    Comment,
    Characters,
    Instruction,
    Doctype,
    NullCharacter,
    EndOfFile,
    Error,
}

// A word that has to follow: a text, or a text that may be absent.
#[derive(Clone, Copy)]
pub(crate) enum Slot {
    Text,
    Optional,
}

fn kind_of(word: u32) -> u32
    ensures { result ≡ kind_of word }
{
    word >> 28
}

// The payload of a text is its length in bytes. An absent text has none.
pub(crate) fn payload_of(word: u32) -> usize
    ensures value { result ≡ payload_of word }
    ensures bound { result < 268435456 }
{
    (word & 0x0fff_ffff) as usize
}

// Whether the word stands for a text, and not for an absent one.
pub(crate) fn is_text(word: u32) -> bool
    ensures { result ≡ is_text word }
{
    kind_of(word) == TEXT
}

impl Slot {
    // Whether the word may stand in the slot.
    pub(crate) fn takes(self, word: u32) -> bool
        ensures { result ≡ takes self word }
    {
        match self {
            Slot::Text => is_text(word),
            Slot::Optional => is_text(word) || kind_of(word) == NO_TEXT && payload_of(word) == 0,
        }
    }
}

// The numbers of the kinds are the tape's format, given from outside. Only the first word of a tag has a payload: the
// number of the attributes.
impl TryFrom<u32> for Head {
    type Error = TapeCause;

    ghost try_from_gives = { λ word result. result ≡ head_of word };

    fn try_from(word: u32) -> Result<Head, TapeCause> {
        let payload = payload_of(word);
        match kind_of(word) {
            1 => Ok(Head::Tag(TagKind::Start, payload)),
            2 => Ok(Head::Tag(TagKind::End, payload)),
            3 => Ok(Head::Tag(TagKind::Empty, payload)),
            _ if payload != 0 => Err(TapeCause::WrongWord),
            4 => Ok(Head::ShortTag),
            5 => Ok(Head::Comment),
            6 => Ok(Head::Characters),
            7 => Ok(Head::Instruction),
            8 => Ok(Head::Doctype),
            9 => Ok(Head::NullCharacter),
            10 => Ok(Head::EndOfFile),
            11 => Ok(Head::Error),
            _ => Err(TapeCause::WrongWord),
        }
    }
}

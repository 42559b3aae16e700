// Refusals: what a call tells that changed nothing.
ghost use Rattle.std.specs.Prelude.{◌≡◌};
ghost use Rattle.names.specs.Refusals.{refusal_number};

// Why a call is refused, by the number that people are told.
#[derive(Clone, Copy, PartialEq, Eq)]
pub enum RefusalCode {
    // A word of the tape may not stand there, or has bits that must be 0.
    WrongWord = 1,
    // The tape ends where a word is needed.
    NoWord = 2,
    // A text reaches past the tape's text.
    PastText = 3,
    // A new name does not fit into the name table.
    NamesFull = 4,
    // The builder waits for a script note to be spent.
    NoteAwaited = 5,
    // A number that is no name's, or a value that lies outside the text.
    UnknownName = 6,
    TooManyAttributes = 7,
    TooManyOpen = 8,
    TooManyBindings = 9,
    SinkFull = 10,
    // A script note is spent that nobody waits for.
    NoNoteAwaited = 11,
    // A node may not be put there.
    Misplaced = 12,
    // The node to be closed is not an open element.
    NotOpen = 13,
    OutputFull = 14,
}

impl RefusalCode {
    // The number by which people are told of the refusal.
    pub fn number(self) -> u8
        ensures { result ≡ refusal_number self }
    {
        self as u8
    }
}

// The part of the library that refuses. It says what a refusal's place counts.
#[derive(Clone, Copy)]
pub enum Layer {
    Names,
    Tape,
    Sink,
    Builder,
    Serializer,
}

// What every refusal tells: why, the layer that gives it, and how far that layer had come.
#[derive(Clone, Copy)]
pub struct Refusal {
    pub code: RefusalCode,
    pub layer: Layer,
    pub place: u64,
}

// The limit that a new text would pass. Both are one refusal, but a person wants to know which it was. `held` is how many
// names the table holds.
#[derive(Clone, Copy)]
pub enum NameFault {
    TooManyNames { held: usize },
    TooManyBytes { held: usize },
}

// A full table's refusal, at the names held.
impl From<NameFault> for Refusal {
    ghost use Rattle.names.specs.Refusals.{refusal_of};

    ghost from_gives = { λ fault refusal. refusal ≡ refusal_of fault };

    fn from(fault: NameFault) -> Refusal {
        let (NameFault::TooManyNames { held } | NameFault::TooManyBytes { held }) = fault;
        Refusal {
            code: RefusalCode::NamesFull,
            layer: Layer::Names,
            place: held as u64,
        }
    }
}

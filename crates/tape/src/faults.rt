// Why a token is not read.
ghost use Rattle.std.specs.Prelude.{◌≡◌};
ghost use Rattle.tape.specs.Faults.{code_of, refusal_of};
ghost use Rattle.tape.specs.declared.faults.TapeCause.TheVariants.{Names};

use names::{Layer, NameFault, Refusal, RefusalCode};

// What is wrong with a token. The fault of the name table is kept whole.
#[derive(Clone, Copy)]
pub enum TapeCause {
    // A word of a kind that cannot stand there, or with payload bits that have to be 0.
    WrongWord,
    // The words end where one is needed.
    NoWord,
    // The texts of the token reach past the tape's text.
    PastText,
    // More than 32, or more than the table lent to the reader holds.
    TooManyAttributes,
    Names(NameFault),
}

impl From<NameFault> for TapeCause {
    ghost from_gives = { λ fault cause. cause ≡ Names fault };

    fn from(fault: NameFault) -> TapeCause {
        TapeCause::Names(fault)
    }
}

impl From<TapeCause> for RefusalCode {
    ghost from_gives = { λ cause code. code ≡ code_of cause };

    fn from(cause: TapeCause) -> RefusalCode {
        match cause {
            TapeCause::WrongWord => RefusalCode::WrongWord,
            TapeCause::NoWord => RefusalCode::NoWord,
            TapeCause::PastText => RefusalCode::PastText,
            TapeCause::Names(_) => RefusalCode::NamesFull,
            TapeCause::TooManyAttributes => RefusalCode::TooManyAttributes,
        }
    }
}

// `at` is the index of the token's first word on the tape.
#[derive(Clone, Copy)]
pub struct TapeFault {
    pub at: usize,
    pub cause: TapeCause,
}

// The refusal of the tape's layer, at the token's first word.
impl From<TapeFault> for Refusal {
    ghost from_gives = { λ fault refusal. refusal ≡ refusal_of fault };

    fn from(fault: TapeFault) -> Refusal {
        Refusal {
            code: fault.cause.into(),
            layer: Layer::Tape,
            place: fault.at as u64,
        }
    }
}

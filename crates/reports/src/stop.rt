// Why a reading ends before its listing does, with the plain words for refusals.
use listing::{Expected, ListingFault};
use names::{NameFault, Refusal};
use scopes::ScopeFault;
use std::alloc::{AllocError, AllocFailed};
use std::fmt;

// Lack of memory ends the whole report. The others are printed, and what was printed before stays.
#[derive(Clone, Copy)]
pub(crate) enum Stop {
    Memory(AllocError),
    Malformed(Expected),
    Names(NameFault),
    Scopes(ScopeFault),
}

impl<T: Drop> From<AllocFailed<T>> for Stop {
    fn from(failed: AllocFailed<T>) -> Stop {
        Stop::Memory(AllocError::from(failed))
    }
}

// A report is written to memory, and a lack of it is all that can go wrong there.
impl From<AllocError> for Stop {
    fn from(e: AllocError) -> Stop {
        Stop::Memory(e)
    }
}

impl From<ListingFault> for Stop {
    fn from(fault: ListingFault) -> Stop {
        match fault {
            ListingFault::Memory(e) => Stop::Memory(e),
            ListingFault::Expected(expected) => Stop::Malformed(expected),
        }
    }
}

impl From<NameFault> for Stop {
    fn from(fault: NameFault) -> Stop {
        Stop::Names(fault)
    }
}

impl From<ScopeFault> for Stop {
    fn from(fault: ScopeFault) -> Stop {
        Stop::Scopes(fault)
    }
}

// Faults are types of the libraries, which leave the words to the program.
fn name_words(fault: NameFault) -> &'static str {
    match fault {
        NameFault::TooManyNames { .. } => "there would be more than 512 different names",
        NameFault::TooManyBytes { .. } => {
            "the different names would have more than 16384 bytes together"
        }
    }
}

fn scope_words(fault: ScopeFault) -> &'static str {
    match fault {
        ScopeFault::TooManyRows => "there would be more than 128 open elements",
        ScopeFault::TooManyBindings => "there would be more than 256 bindings at once",
        ScopeFault::Reserved => "xml or xmlns was to be bound",
        ScopeFault::NoOpenRow => "there is no open element",
    }
}

impl fmt::Display for Stop {
    fn fmt<W: fmt::Write>(&self, f: &mut fmt::Formatter<W>) -> fmt::Result {
        match *self {
            Stop::Memory(_) => f.write_str("out of memory"),
            Stop::Malformed(expected) => write!(f, "malformed, expected {expected}"),
            Stop::Names(fault) => {
                let words = name_words(fault);
                let code = Refusal::from(fault).code;
                write!(f, "refused, number {}: {words}", code.number())
            }
            Stop::Scopes(fault) => {
                let words = scope_words(fault);
                match fault.code() {
                    Some(code) => write!(f, "refused, number {}: {words}", code.number()),
                    // A call that a reading never makes was refused.
                    None => write!(f, "a mistake of this program: {words}"),
                }
            }
        }
    }
}

// Why a table of bindings is not changed.
ghost use Rattle.std.specs.Prelude.{◌≡◌};
ghost use Rattle.scopes.specs.Faults.{code_of};

use names::RefusalCode;

// The first two are limits that a document can meet. The others are mistakes of the caller.
#[derive(Clone, Copy, Debug)]
pub enum ScopeFault {
    TooManyRows,
    TooManyBindings,
    Reserved,
    NoOpenRow,
}

impl ScopeFault {
    // The refusal that the layers above make of it. A caller's mistake is none.
    pub fn code(self) -> Option<RefusalCode>
        ensures { result ≡ code_of self }
    {
        match self {
            ScopeFault::TooManyRows => Some(RefusalCode::TooManyOpen),
            ScopeFault::TooManyBindings => Some(RefusalCode::TooManyBindings),
            ScopeFault::Reserved | ScopeFault::NoOpenRow => None,
        }
    }
}

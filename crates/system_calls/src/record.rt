// The record of calls.
ghost use Rattle.std.specs.Prelude.{◌≡◌, List, [], ◌∷◌};
ghost use Rattle.std.specs.Borrow.{ftrue};
ghost use Rattle.system_calls.specs.Calls.{Noted, noted};

use crate::call::Call;
use std::marker::{Model, PhantomData};

/// The calls so far, the last one first. No memory holds them: only clauses read them, and only `note`
/// adds to them.
#[derive(Drop)]
pub struct Record {
    of: PhantomData<u8>,
    pub ghost calls: { List Noted },
}

impl Model for Record {
    ghost also_owns = { λ _. ftrue };
}

impl Record {
    /// No call.
    pub fn new() -> Record
        ensures { result.calls ≡ [] }
    {
        Record { of: PhantomData }
    }

    /// Adds a call.
    pub fn note(&mut self, _call: &Call)
        ensures { self.new.calls ≡ noted _call.now ∷ self.old.calls }
    {}
}

// The names that calls were for.
ghost use Rattle.std.specs.Prelude.{◌≡◌, ◌++◌, ◌∷◌, [], Some};
ghost use Rattle.std.specs.Bool.{OnTrue};
ghost use Rattle.shelf_traits.specs.Files.{Told, calls_beside};

use crate::bytes::Bytes;
use std::alloc::Global;
use std::marker::Model;

/// The names of calls, in their order, while there is memory for them. Once it was refused none are given.
#[derive(Drop)]
pub struct Calls {
    names: Vec<Bytes>,
    told: bool,
}

impl Model for Calls {
    ghost use Rattle.std.specs.Prelude.{List, ℕ, Option, Some, None, if◌then◌else◌};

    ghost Value = { Option (List (List ℕ)) };

    ghost view = { λ a. if a.told then Some a.names.items else None };
}

// Puts a name after the others, and says whether there was memory for it.
fn keep(alloc: Global, names: &mut Vec<Bytes>, name: &[u8]) -> bool
    ensures { OnTrue result (names.new.items ≡ names.old.items ++ name.now ∷ []) }
{
    let Ok(name) = Bytes::copy(alloc, name) else {
        return false;
    };
    let Ok(()) = names.push(name) else {
        return false;
    };
    true
}

impl Calls {
    pub fn new(alloc: Global) -> Calls
        ensures { result ≡ Some [] }
    {
        Calls {
            names: Vec::new(alloc),
            told: true,
        }
    }

    // One name more.
    fn put(&mut self, alloc: Global, name: &[u8])
        ensures { Told self.old self.new (λ was now. now ≡ was ++ name.now ∷ []) }
    {
        if self.told && !keep(alloc, &mut self.names, name) {
            self.told = false;
        }
    }

    // One call more, for this name.
    pub fn note(&mut self, alloc: Global, name: &[u8])
        ensures asked { Told self.old self.new (λ was now. now ≡ was ++ name.now ∷ []) }
        ensures only { Told self.old self.new (λ was now.
            calls_beside (name.now ∷ []) now ≡ calls_beside (name.now ∷ []) was) }
    {
        self.put(alloc, name);
    }
}

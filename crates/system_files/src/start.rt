// What was there before the first call, which only clauses read.
ghost use Rattle.std.specs.Prelude.{ℕ, Option, None};
ghost use Rattle.std.specs.FinMap as map;
ghost use Rattle.shelf_traits.specs.Files.{Files};

/// What a run can't know of the system: the files before it, and what each call that fails leaves. A
/// function over `S: Start` is proved for all that these may be.
pub trait Start: Drop {
    /// The files before the first call.
    ghost files: { Files };

    /// What a call of a shelf leaves if it fails, by how many calls were before it: nothing, or so many
    /// bytes of its piece. A file that is begun is then empty.
    ghost left: { ℕ → Option ℕ };

    /// How many bytes of its piece a call of the standard output leaves if it fails.
    ghost left_out: { ℕ → ℕ };

    /// The same of the standard error.
    ghost left_err: { ℕ → ℕ };
}

/// A start of which nothing is known, for `main` to name. What it says here is read by nobody: what
/// `main` calls is proved for every start.
#[derive(Drop)]
pub struct Unknown;

impl Start for Unknown {
    ghost files = { map.empty };

    ghost left = { λ _. None };

    ghost left_out = { λ _. 0 };

    ghost left_err = { λ _. 0 };
}

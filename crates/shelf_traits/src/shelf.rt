// The traits of the outside, and what a caller may rely on.
ghost use Rattle.std.specs.Prelude.{◌≡◌, ◌≤◌, ◌++◌, length, IfOk, OnOk, OnErr};
ghost use Rattle.shelf_traits.specs.Files.{ShelfState, SinkState, Told, Changes, Rose, ReadsRose, WritesRose, Reads, AsksFor, OnlyReadsFile, OnlyWritesFile, content_of, IsPrefixAdded, Begins, BeginsPart, Appends, AppendsPart};

/// A call to the outside that failed. The count of faults of its kind tells that it did.
#[derive(Clone, Copy, Drop)]
pub struct Failed;

/// Something that bytes are written to, one piece after another.
pub trait Sink {
    /// The bytes written so far, where the sink tells them, and how often a write has failed.
    ghost state: { Self → SinkState };

    /// Writes a piece after what was written. After `Failed` a prefix of the piece may be there.
    fn add(&mut self, piece: &[u8]) -> Result<(), Failed>
        ensures added { OnOk result (Told (state self.old).bytes (state self.new).bytes
            (λ was now. now ≡ was ++ piece.now)) }
        ensures part { OnErr result (Told (state self.old).bytes (state self.new).bytes
            (λ was now. IsPrefixAdded was piece.now now)) }
        ensures counted { (state self.old).faults ≤ (state self.new).faults }
        ensures failed { OnErr result (Rose (state self.old).faults (state self.new).faults) };
}

/// Files by their names.
pub trait Shelf {
    /// The files, where the shelf tells them; for each name how often reads and writes have failed; and
    /// the name of each call, in their order, where it tells those.
    ghost state: { Self → ShelfState };

    /// Reads the bytes of a file from place `at` on, as many as the buffer and the file have, and
    /// gives their number. A name that isn't there reads as an empty file.
    fn get(&mut self, name: &str, at: u64, into: &mut [u8]) -> Result<usize, Failed>
        ensures within { IfOk result (λ n. n ≤ length into.old) }
        ensures read { IfOk result (λ n.
            Changes (state self.old) (state self.new)
            (λ was now. Reads (content_of was name.now) at into.new n)) }
        ensures reads { OnlyReadsFile name.now (state self.old) (state self.new) }
        ensures asked { AsksFor name.now (state self.old) (state self.new) }
        ensures failed { OnErr result (ReadsRose name.now (state self.old) (state self.new)) };

    /// Makes a file present and empty. After `Failed` it is as before or empty.
    fn begin(&mut self, name: &str) -> Result<(), Failed>
        ensures begun { OnOk result (Changes (state self.old) (state self.new) (Begins name.now)) }
        ensures part { OnErr result (Changes (state self.old) (state self.new)
            (BeginsPart name.now)) }
        ensures writes { OnlyWritesFile name.now (state self.old) (state self.new) }
        ensures asked { AsksFor name.now (state self.old) (state self.new) }
        ensures failed { OnErr result (WritesRose name.now (state self.old) (state self.new)) };

    /// Writes a piece after the bytes of a file; a missing one counts as empty. After `Failed` a
    /// prefix of the piece may be there.
    fn add(&mut self, name: &str, piece: &[u8]) -> Result<(), Failed>
        ensures added { OnOk result (Changes (state self.old) (state self.new)
            (Appends name.now piece.now)) }
        ensures part { OnErr result (Changes (state self.old) (state self.new)
            (AppendsPart name.now piece.now)) }
        ensures writes { OnlyWritesFile name.now (state self.old) (state self.new) }
        ensures asked { AsksFor name.now (state self.old) (state self.new) }
        ensures failed { OnErr result (WritesRose name.now (state self.old) (state self.new)) };
}

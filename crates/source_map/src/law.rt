// What the forms of maps promise, whoever reads or writes.
ghost use Rattle.std.specs.Prelude.{◌≡◌, ◌++◌, ℕ, List, Ok, Err};
ghost use Rattle.shelf_traits.specs.declared.fault.ReadError.{ReadError};
ghost use Rattle.source_map.specs.declared.map_file.MapFile.{MapFile};
ghost use Rattle.source_map.specs.MapFiles.{IsMapFile, IsMapOf, map_form, map_read, version_one_map_read};
ghost use Rattle.source_map.specs.Readings.{AreBytes};

/// What is written is read again. Bytes spell one map at most, what they spell isn't refused, and bytes
/// that are read as a map are its spelling.
pub fn one_map_reading()
    ensures read_again { (value : MapFile) → IsMapFile value →
        map_read (map_form value) ≡ Ok value }
    ensures one_value { (bytes : List ℕ) (first second : MapFile) → IsMapOf bytes first →
        IsMapOf bytes second → first ≡ second }
    ensures not_refused { (bytes : List ℕ) (value : MapFile) (refusal : ReadError) →
        IsMapOf bytes value → map_read bytes ≡ Err refusal → ⊥ }
    ensures one_spelling { (bytes : List ℕ) (value : MapFile) → AreBytes bytes →
        map_read bytes ≡ Ok value → bytes ≡ map_form value }
{}

/// No spelling is a proper prefix of another: where bytes begin with the spelling of a map and are the
/// spelling of one, the two maps are equal.
pub fn no_map_begins_another()
    ensures { (first second : MapFile) (more : List ℕ) → IsMapFile first → IsMapFile second →
        map_form first ++ more ≡ map_form second → first ≡ second }
{}

/// A reader of version 1 alone reads nothing else than one of all versions does.
pub fn version_one_maps_are_maps()
    ensures { (bytes : List ℕ) (value : MapFile) → version_one_map_read bytes ≡ Ok value →
        map_read bytes ≡ Ok value }
{}

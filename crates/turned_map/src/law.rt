// What the form of maps over turned samples promises, whoever reads or writes.
ghost use Rattle.std.specs.Prelude.{◌≡◌, ℕ, List, Ok, Err};
ghost use Rattle.shelf_traits.specs.declared.fault.ReadError.{ReadError};
ghost use Rattle.source_map.specs.Readings.{AreBytes};
ghost use Rattle.turned_map.specs.declared.turned_file.TurnedFile.{TurnedFile};
ghost use Rattle.turned_map.specs.TurnedFiles.{IsTurnedFile, IsTurnedFileOf, turned_map_form, turned_map_read};

/// What is written is read again. Bytes spell one map at most, what they spell isn't refused, and bytes
/// that are read as a map are its spelling.
pub fn one_turned_reading()
    ensures read_again { (value : TurnedFile) → IsTurnedFile value →
        turned_map_read (turned_map_form value.map value.samples) ≡ Ok value }
    ensures one_value { (bytes : List ℕ) (first second : TurnedFile) →
        IsTurnedFileOf bytes first → IsTurnedFileOf bytes second → first ≡ second }
    ensures not_refused { (bytes : List ℕ) (value : TurnedFile) (refusal : ReadError) →
        IsTurnedFileOf bytes value → turned_map_read bytes ≡ Err refusal → ⊥ }
    ensures one_spelling { (bytes : List ℕ) (value : TurnedFile) → AreBytes bytes →
        turned_map_read bytes ≡ Ok value → bytes ≡ turned_map_form value.map value.samples }
{}

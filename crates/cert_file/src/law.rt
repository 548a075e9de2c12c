// What the form promises, whoever reads or writes.
ghost use Rattle.std.specs.Prelude.{◌≡◌, ◌++◌, ℕ, List};
ghost use Rattle.shelf_traits.specs.declared.fault.ReadError.{ReadError};
ghost use Rattle.cert_file.specs.declared.file.RecordFile.{RecordFile};
ghost use Rattle.cells.specs.declared.place.Taps.{Taps};
ghost use Rattle.cut_check.specs.declared.record.CutRecord.{CutRecord};
ghost use Rattle.block_check.specs.declared.block.BlockRecord.{BlockRecord};
ghost use Rattle.source_map.specs.declared.head.Head.{Head};
ghost use Rattle.cert_file.specs.RecordFiles.{AreBlocksReadAgain, AreBlocksSpelled, AreReadAgain, AreSpelled, HasSpelling, IsRecordFileOf, IsReadByBoth, IsWalkReadAgain, IsWalkSpelled, RefusesRecordFile, record_file_form};

/// Bytes stand for one value at most, have one refusal at most, and not both.
pub fn one_reading()
    ensures one_value { (bytes : List ℕ) (first second : RecordFile) → IsRecordFileOf bytes first →
        IsRecordFileOf bytes second → first ≡ second }
    ensures one_refusal { (bytes : List ℕ) (first second : ReadError) →
        RefusesRecordFile bytes first → RefusesRecordFile bytes second → first ≡ second }
    ensures not_both { (bytes : List ℕ) (file : RecordFile) (refusal : ReadError) →
        IsRecordFileOf bytes file → RefusesRecordFile bytes refusal → ⊥ }
{}

/// Cut records that are written, and whose boxes are within the limit on cells, are read again.
pub fn cuts_read_again()
    ensures { (head : Head) (cuts : List CutRecord) → AreReadAgain head cuts }
{}

/// Bytes that stand for cut records are their one spelling.
pub fn cuts_have_one_spelling()
    ensures { (bytes : List ℕ) (head : Head) (cuts : List CutRecord) →
        AreSpelled bytes head cuts }
{}

/// Block records that are written, and whose boxes are within the limit on cells, are read again.
pub fn blocks_read_again()
    ensures { (head : Head) (blocks : List BlockRecord) → AreBlocksReadAgain head blocks }
{}

/// Bytes that stand for block records are their one spelling.
pub fn blocks_have_one_spelling()
    ensures { (bytes : List ℕ) (head : Head) (blocks : List BlockRecord) →
        AreBlocksSpelled bytes head blocks }
{}

/// A walk record that is written is read again.
pub fn walk_read_again()
    ensures { (head : Head) (taps : Taps) (gap : ℕ) (walk tables : List ℕ) →
        IsWalkReadAgain head taps gap walk tables }
{}

/// Bytes that stand for a walk record are its one spelling.
pub fn walk_has_one_spelling()
    ensures { (bytes : List ℕ) (head : Head) (taps : Taps) (gap : ℕ) (walk tables : List ℕ) →
        IsWalkSpelled bytes head taps gap walk tables }
{}

/// No spelling is a proper prefix of another: where bytes begin with the spelling of a value and are the
/// spelling of one, the two values are equal.
pub fn no_record_begins_another()
    ensures { (first second : RecordFile) (more : List ℕ) → HasSpelling first → HasSpelling second →
        record_file_form first ++ more ≡ record_file_form second → first ≡ second }
{}

/// A reader of version 1 alone reads nothing else than one of all versions does, and cut records of
/// version 1 alone.
pub fn version_one_cuts_are_cuts()
    ensures { (bytes : List ℕ) (file : RecordFile) → IsReadByBoth bytes file }
{}

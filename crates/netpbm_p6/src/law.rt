// What the grammar promises, whoever reads or writes.
ghost use Rattle.std.specs.Prelude.{◌≡◌, ◌≤◌, ℕ, List};
ghost use Rattle.cells.specs.Cells.{Cells};
ghost use Rattle.cells.specs.Places.{cell_count};
ghost use Rattle.shelf_traits.specs.declared.fault.ReadError.{ReadError};
ghost use Rattle.limits.specs.declared.bounds.TheConstants.{MOST_SAMPLE_CELLS};
ghost use Rattle.netpbm_p6.specs.declared.picture.Picture.{Picture};
ghost use Rattle.netpbm_p6.specs.Pictures.{IsPictureOf, Refuses, IsRead, IsPicture, p6_form};

/// Bytes stand for one picture at most, have one refusal at most and not both, and the writer's form
/// of a picture stands for that picture.
pub fn one_reading()
    ensures one_picture { (bytes : List ℕ) (first second : Picture) → IsPictureOf bytes first →
        IsPictureOf bytes second → first ≡ second }
    ensures one_refusal { (bytes : List ℕ) (first second : ReadError) → Refuses bytes first →
        Refuses bytes second → first ≡ second }
    ensures not_both { (bytes : List ℕ) (picture : Picture) (refusal : ReadError) →
        IsRead bytes picture → Refuses bytes refusal → ⊥ }
    ensures written_is_read { (maxval : ℕ) (volume : Cells) → IsPicture maxval volume →
        cell_count volume.size ≤ MOST_SAMPLE_CELLS →
        IsRead (p6_form maxval volume) (record { maxval = maxval; volume = volume }) }
    ensures read_again { (maxval : ℕ) (volume : Cells) → IsPicture maxval volume →
        IsPictureOf (p6_form maxval volume) (record { maxval = maxval; volume = volume }) }
{}

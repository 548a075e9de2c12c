// What the grammar promises, whoever reads or writes.
ghost use Rattle.std.specs.Prelude.{◌≡◌, ◌≤◌, ◌<◌, ◌+◌, ◌++◌, ℕ, List};
ghost use Rattle.cells.specs.Cells.{Cells};
ghost use Rattle.cells.specs.Places.{cell_count};
ghost use Rattle.shelf_traits.specs.Files.{Files, Appends};
ghost use Rattle.shelf_traits.specs.Written.{HoldsText};
ghost use Rattle.shelf_traits.specs.declared.fault.ReadError.{ReadError};
ghost use Rattle.y4m_clip.specs.declared.form.Clip.{Clip};
ghost use Rattle.y4m_clip.specs.declared.form.ClipForm.{ClipForm};
ghost use Rattle.y4m_clip.specs.Spaces.{joined_to};
ghost use Rattle.y4m_clip.specs.Clips.{IsClipOf};
ghost use Rattle.y4m_clip.specs.Refusals.{RefusesClip, IsReadClip};
ghost use Rattle.y4m_clip.specs.Writing.{IsClip, clip_form};

/// Bytes stand for one clip at most, have one refusal at most and not both, and the writer's form of a
/// clip stands for that clip, also within the limits where these allow its cells.
pub fn one_reading()
    ensures one_clip { (bytes : List ℕ) (first second : Clip) → IsClipOf bytes first →
        IsClipOf bytes second → first ≡ second }
    ensures one_refusal { (most : ℕ) (bytes : List ℕ) (first second : ReadError) →
        RefusesClip most bytes first → RefusesClip most bytes second → first ≡ second }
    ensures not_both { (most : ℕ) (bytes : List ℕ) (clip : Clip) (refusal : ReadError) →
        IsReadClip most bytes clip → RefusesClip most bytes refusal → ⊥ }
    ensures read_again { (form : ClipForm) (volume : Cells) → IsClip form volume →
        IsClipOf (clip_form form volume) (record { form = form; volume = volume }) }
    ensures written_is_read { (most : ℕ) (form : ClipForm) (volume : Cells) →
        IsClip form volume → cell_count volume.size ≤ most →
        IsReadClip most (clip_form form volume) (record { form = form; volume = volume }) }
{}

/// A file that holds a text holds the frames after it, one after another, once they are added. So after
/// [`crate::ClipWriter::start`] and [`crate::ClipWriter::frame`] for each frame of a volume in order it
/// holds the writer's form of the clip.
pub fn frames_follow()
    ensures { (name line : List ℕ) (n : ℕ) (frame : ℕ → List ℕ) (was : Files) (now : ℕ → Files) →
        HoldsText name line was (now 0) →
        ((f : ℕ) → f < n → Appends name (frame f) (now f) (now (f + 1))) →
        HoldsText name (line ++ joined_to n frame) was (now n) }
{}

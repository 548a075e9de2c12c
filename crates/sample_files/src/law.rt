// The laws of samples.
ghost use Rattle.std.specs.Prelude.{◌≡◌, ℕ, List};
ghost use Rattle.synth_report.specs.declared.fault.Fault.{Fault};
ghost use Rattle.sample_files.specs.declared.several.Asked.{Asked};
ghost use Rattle.sample_files.specs.declared.several.Samples.{Samples};
ghost use Rattle.sample_files.specs.Several.{AreSoundSeveral, StandForSeveral, RefusesSeveral};

/// The bytes of files have one answer at most: they stand for samples of one form and volume, or
/// they are refused for one fault once so many are read, and not both.
pub fn one_answer()
    ensures one_value { (asked : Asked) (first : List ℕ) (more : List (List ℕ))
        (one other : Samples) → StandForSeveral asked first more one →
        StandForSeveral asked first more other → one ≡ other }
    ensures one_refusal { (asked : Asked) (first : List ℕ) (more : List (List ℕ)) (m n : ℕ)
        (one other : Fault) → RefusesSeveral asked m first more one →
        RefusesSeveral asked n first more other → one ≡ other }
    ensures not_both { (asked : Asked) (first : List ℕ) (more : List (List ℕ))
        (samples : Samples) (n : ℕ) (fault : Fault) → StandForSeveral asked first more samples →
        RefusesSeveral asked n first more fault → ⊥ }
{}

/// What bytes of files stand for is sound: of one form, within the limits, with no byte that the
/// form doesn't allow, and as was asked of them.
pub fn samples_are_sound()
    ensures { (asked : Asked) (first : List ℕ) (more : List (List ℕ)) (samples : Samples) →
        StandForSeveral asked first more samples → AreSoundSeveral asked samples }
{}

// The forms of samples.
ghost use Rattle.std.specs.Prelude.{◌≡◌};
ghost use Rattle.sample_files.specs.Samples.{can_turn, goes_with};

use y4m_clip::{ClipForm, SpaceKind};

/// The form of a sample, which the output has too.
#[derive(Drop)]
pub enum Form {
    /// A P6 picture with this maxval.
    Picture { maxval: u8 },
    /// A clip with this colour kind and these tags.
    Clip { form: ClipForm },
}

impl Form {
    /// Whether the cells of a sample in this form can be turned: each is one pixel, which a turn moves
    /// as a whole.
    pub fn can_turn(&self) -> bool
        ensures { result ≡ can_turn self.now }
    {
        match self {
            Form::Picture { .. } => true,
            Form::Clip { form } => match form.space {
                SpaceKind::Mono | SpaceKind::C444 => true,
                SpaceKind::C422 | SpaceKind::C411 | SpaceKind::C420 => false,
            },
        }
    }

    /// Whether a further sample of another form goes with a first one of this form.
    pub fn goes_with(&self, other: &Form) -> bool
        ensures { result ≡ goes_with self.now other.now }
    {
        match (self, other) {
            (Form::Picture { maxval }, Form::Picture { maxval: other }) => *maxval == *other,
            (Form::Clip { form }, Form::Clip { form: other }) => form.space == other.space,
            (Form::Picture { .. }, Form::Clip { .. }) => false,
            (Form::Clip { .. }, Form::Picture { .. }) => false,
        }
    }
}

// Several pictures of one size and one maxval.
ghost use Rattle.std.specs.Prelude.{◌<◌, length, IfOk};
ghost use Rattle.limits.specs.declared.bounds.TheConstants.{MOST_PARTS};
ghost use Rattle.shelf_traits.specs.Files.{OnlyReads};
ghost use Rattle.command.specs.Commands.{names_in};
ghost use Rattle.sample_files.specs.Several.{sample_files};
ghost use Rattle.merge_command.specs.Pictures.{ArePicturesRead, AreSoundPictures};

use cells::Volume;
use job_words::Name;
use sample_files::{Asked, Form, Samples, read_several};
use shelf_traits::Shelf;
use std::alloc::Global;
use synth_report::Fault;

/// Pictures of one size: their one maxval, and a volume whose parts are their volumes, in the order of
/// their numbers.
#[derive(Drop)]
pub struct Pictures {
    pub maxval: u8,
    pub volume: Volume,
}

/// Reads pictures of one size and one maxval, in the order of their numbers, each to its end, with the
/// refusals of its form. A further picture is refused where its maxval or its size isn't the first's,
/// and then where all so far have too many cells together. No file is read after a refusal.
pub fn read_pictures<S: Shelf>(
    alloc: Global,
    shelf: &mut S,
    first: &Name,
    more: &[Name],
) -> Result<Pictures, Fault>
    requires { length more.now < MOST_PARTS }
    ensures answer { ArePicturesRead first.now more.now
        (S.state shelf.old) (S.state shelf.new) result }
    ensures sound { IfOk result AreSoundPictures }
    ensures reads { OnlyReads (names_in (sample_files first.now more.now))
        (S.state shelf.old) (S.state shelf.new) }
{
    let asked = Asked {
        pictures: true,
        one_size: true,
        turns: false,
    };
    let Samples { form, volume } = read_several(alloc, shelf, asked, first, more)?;
    match form {
        Form::Picture { maxval } => Ok(Pictures { maxval, volume }),
        Form::Clip { .. } => unreachable!(),
    }
}

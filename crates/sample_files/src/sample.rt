// One sample: what its bytes are, whatever its form.
ghost use Rattle.std.specs.Prelude.{◌≡◌, ◌≤◌, true, false, IfOk, OnErr};
ghost use Rattle.shelf_traits.specs.Files.{InFile, OnlyReadsFile, ReadsRose};
ghost use Rattle.limits.specs.declared.bounds.TheConstants.{MOST_CELLS};
ghost use Rattle.sample_files.specs.Samples.{IsPictureForm, IsSoundSample, IsSoundSampleWithin, SampleReadsAs, SampleReadsWithin, begins_clip};
ghost use Rattle.sample_files.specs.Steps.{ReadsInForm, SampleReadsIn};

use crate::form::Form;
use cells::Volume;
use limits::MOST_SAMPLE_CELLS;
use netpbm_p6::{Picture, read_p6};
use shelf_traits::{Failed, ReadError, Shelf};
use std::alloc::Global;
use y4m_clip::read_clip;

/// A sample: its form, and its cells.
#[derive(Drop)]
pub struct Sample {
    pub form: Form,
    pub volume: Volume,
}

// Whether a file is read as a clip: its first byte is `Y`.
fn begins_clip<S: Shelf>(shelf: &mut S, name: &str) -> Result<bool, Failed>
    ensures begins { IfOk result (λ clip. InFile name.now (S.state shelf.old) (S.state shelf.new)
        (λ bytes. begins_clip bytes ≡ clip)) }
    ensures failed { OnErr result (ReadsRose name.now (S.state shelf.old) (S.state shelf.new)) }
    ensures reads { OnlyReadsFile name.now (S.state shelf.old) (S.state shelf.new) }
{
    let mut first = [0u8; 1];
    let count = shelf.get(name, 0, &mut first)?;
    Ok(count == 1 && first[0] == b'Y')
}

// Reads a picture.
fn read_as_picture<S: Shelf>(alloc: Global, shelf: &mut S, name: &str) -> Result<Sample, ReadError>
    ensures answer { (most : _) → ReadsInForm false most name.now
        (S.state shelf.old) (S.state shelf.new) result }
    ensures alone { SampleReadsIn true name.now (S.state shelf.old) (S.state shelf.new) result }
    ensures sound { (most : _) → IfOk result (IsSoundSampleWithin most) }
    ensures picture { IfOk result (λ sample. IsPictureForm sample.form) }
    ensures reads { OnlyReadsFile name.now (S.state shelf.old) (S.state shelf.new) }
{
    match read_p6(alloc, shelf, name) {
        Ok(Picture { maxval, volume }) => Ok(Sample {
            form: Form::Picture { maxval },
            volume,
        }),
        Err(error) => Err(error),
    }
}

/// Reads a file in the form of a sample, to the file's end, with the refusals of its form: a clip of at
/// most `most` cells where its first byte is `Y`, and otherwise a P6 picture, which has at most 2^23
/// cells.
pub fn read_sample_within<S: Shelf>(
    alloc: Global,
    shelf: &mut S,
    name: &str,
    most: u64,
) -> Result<Sample, ReadError>
    requires { most ≤ MOST_CELLS }
    ensures answer { SampleReadsWithin most name.now
        (S.state shelf.old) (S.state shelf.new) result }
    ensures sound { IfOk result (IsSoundSampleWithin most) }
    ensures reads { OnlyReadsFile name.now (S.state shelf.old) (S.state shelf.new) }
{
    if begins_clip(shelf, name)? {
        return match read_clip(alloc, shelf, name, most) {
            Ok(clip) => Ok(Sample {
                form: Form::Clip { form: clip.form },
                volume: clip.volume,
            }),
            Err(error) => Err(error),
        };
    }
    read_as_picture(alloc, shelf, name)
}

/// Reads a sample from the named file, to the file's end, with the refusals of its form. It has at most
/// 2^23 cells.
pub fn read_sample<S: Shelf>(alloc: Global, shelf: &mut S, name: &str) -> Result<Sample, ReadError>
    ensures answer { SampleReadsAs name.now (S.state shelf.old) (S.state shelf.new) result }
    ensures sound { IfOk result IsSoundSample }
    ensures reads { OnlyReadsFile name.now (S.state shelf.old) (S.state shelf.new) }
{
    read_sample_within(alloc, shelf, name, MOST_SAMPLE_CELLS)
}

/// Reads a file as a picture, where pictures alone are asked for, and otherwise as a sample.
pub(crate) fn read_sample_in<S: Shelf>(
    alloc: Global,
    shelf: &mut S,
    pictures: bool,
    name: &str,
) -> Result<Sample, ReadError>
    ensures answer { SampleReadsIn pictures name.now
        (S.state shelf.old) (S.state shelf.new) result }
    ensures sound { IfOk result IsSoundSample }
    ensures picture { IfOk result (λ sample. pictures ≡ true → IsPictureForm sample.form) }
    ensures reads { OnlyReadsFile name.now (S.state shelf.old) (S.state shelf.new) }
{
    if pictures {
        return read_as_picture(alloc, shelf, name);
    }
    read_sample(alloc, shelf, name)
}

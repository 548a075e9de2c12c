// Pictures that a run reads by themselves: its sample, its marks, its target.
ghost use Rattle.std.specs.Prelude.{◌≡◌, IfOk};
ghost use Rattle.cells.specs.Cells.{IsVolume};
ghost use Rattle.shelf_traits.specs.Files.{OnlyReadsFile};
ghost use Rattle.netpbm_p6.specs.Pictures.{IsRead, IsSound, Refuses};
ghost use Rattle.synth_report.specs.declared.fault.FileOf.TheVariants as part;
ghost use Rattle.command.specs.Faults.{ReadsPart};
ghost use Rattle.sample_files.specs.Targets.{TargetReadsAs};

use command::read_fault;
use job_words::Name;
use netpbm_p6::{Picture, read_p6};
use shelf_traits::Shelf;
use std::alloc::Global;
use synth_report::{Fault, FileOf};

/// Reads the file of a part of a run as a picture, to the file's end, with the refusals of a P6
/// picture: a clip is one of a wrong form at byte 0.
pub fn read_part<S: Shelf>(
    alloc: Global,
    shelf: &mut S,
    part: FileOf,
    name: &Name,
) -> Result<Picture, Fault>
    ensures answer { ReadsPart IsRead Refuses part name.now
        (S.state shelf.old) (S.state shelf.new) result }
    ensures sound { IfOk result IsSound }
    ensures reads { OnlyReadsFile name.now (S.state shelf.old) (S.state shelf.new) }
{
    match read_p6(alloc, shelf, name.as_text()) {
        Ok(picture) => Ok(picture),
        Err(error) => Err(read_fault(part, error)),
    }
}

/// Reads the sample of a run that takes pictures alone, as `read_part` does.
pub fn read_picture<S: Shelf>(alloc: Global, shelf: &mut S, name: &Name) -> Result<Picture, Fault>
    ensures answer { ReadsPart IsRead Refuses part.Sample name.now
        (S.state shelf.old) (S.state shelf.new) result }
    ensures sound { IfOk result IsSound }
    ensures volume { IfOk result (λ picture. IsVolume picture.volume) }
    ensures reads { OnlyReadsFile name.now (S.state shelf.old) (S.state shelf.new) }
{
    read_part(alloc, shelf, FileOf::Sample, name)
}

/// Reads the target of a run, as `read_part` does, after its sample. It is refused as unlike where its
/// maxval isn't the sample's, and may have another size.
pub fn read_target<S: Shelf>(
    alloc: Global,
    shelf: &mut S,
    maxval: u8,
    name: &Name,
) -> Result<Picture, Fault>
    ensures answer { TargetReadsAs maxval name.now
        (S.state shelf.old) (S.state shelf.new) result }
    ensures sound { IfOk result IsSound }
    ensures alike { IfOk result (λ target. target.maxval ≡ maxval) }
    ensures reads { OnlyReadsFile name.now (S.state shelf.old) (S.state shelf.new) }
{
    let target = read_part(alloc, shelf, FileOf::Target, name)?;
    if target.maxval != maxval {
        return Err(Fault::Unlike(FileOf::Target));
    }
    Ok(target)
}

// Whether files go together: their sizes, forms and kinds.
ghost use Rattle.std.specs.Prelude.{◌≡◌, ◌↔◌, ◌∷◌, [], IsTrue};
ghost use Rattle.standing_files.specs.Standing.{AreKindsOfOneRun, GoTogether, NamesSizes, TakesForm, record_file_head, map_output, map_samples};

use cells::{Size, Sizes};
use cert_file::RecordFile;
use sample_files::{Form, Sample, Samples};
use source_map::MapFile;

// Whether two lists of sizes are the same.
fn are_same(a: &Sizes, b: &Sizes) -> bool
    ensures { IsTrue result ↔ (a.now ≡ b.now) }
{
    if a.len() != b.len() {
        return false;
    }
    for part in 0..a.len() {
        if a.at(part + 1) != b.at(part + 1) {
            return false;
        }
    }
    true
}

// Whether there is one size alone, and this is it.
fn is_one(sizes: &Sizes, size: Size) -> bool
    ensures { IsTrue result ↔ (sizes.now ≡ size ∷ []) }
{
    sizes.len() == 1 && sizes.at(1) == size
}

// Whether a map file names the sizes of samples and out picture.
fn map_names_sizes(map_file: &MapFile, samples: &Sizes, out: &Sizes) -> bool
    ensures { IsTrue result
        ↔ NamesSizes samples.now out.now (map_output map_file.now) (map_samples map_file.now) }
{
    match map_file {
        MapFile::Cells {
            map,
            samples: named,
            ..
        } => is_one(out, map.size()) && are_same(samples, named),
        MapFile::Frames { size, sample, .. } => is_one(out, *size) && is_one(samples, *sample),
    }
}

// Whether a record file names them.
fn record_file_names_sizes(record_file: &RecordFile, samples: &Sizes, out: &Sizes) -> bool
    ensures { IsTrue result ↔ NamesSizes samples.now out.now
        (record_file_head record_file.now).output (record_file_head record_file.now).samples }
{
    match record_file {
        RecordFile::Cuts { head, .. }
        | RecordFile::Blocks { head, .. }
        | RecordFile::Walk { head, .. } => {
            is_one(out, head.output) && are_same(samples, &head.samples)
        }
    }
}

// Whether a record file goes with samples of a form: block records with pictures alone.
fn takes_form(record_file: &RecordFile, form: &Form) -> bool
    ensures { IsTrue result ↔ TakesForm record_file.now form.now }
{
    match (record_file, form) {
        (RecordFile::Blocks { .. }, Form::Clip { .. }) => false,
        (RecordFile::Blocks { .. }, Form::Picture { .. }) => true,
        (RecordFile::Cuts { .. } | RecordFile::Walk { .. }, _) => true,
    }
}

// Whether the kinds of a map file and a record file go together.
fn are_kinds_of_one_run(map_file: &MapFile, record_file: &RecordFile) -> bool
    ensures { IsTrue result ↔ AreKindsOfOneRun map_file.now record_file.now }
{
    match (map_file, record_file) {
        (MapFile::Cells { .. }, RecordFile::Cuts { .. }) => true,
        (MapFile::Cells { .. }, RecordFile::Blocks { .. }) => true,
        (MapFile::Cells { .. }, RecordFile::Walk { .. }) => false,
        (MapFile::Frames { .. }, RecordFile::Cuts { .. }) => false,
        (MapFile::Frames { .. }, RecordFile::Blocks { .. }) => false,
        (MapFile::Frames { size, .. }, RecordFile::Walk { walk, .. }) => {
            walk.as_slice().len() == size.f as usize
        }
    }
}

/// Whether map file and record file name the sizes of the pictures, the out picture has the form of the
/// first sample, which goes with the record file, and the kinds of the two files go together.
pub(crate) fn go_together(
    samples: &Samples,
    out: &Sample,
    map_file: &MapFile,
    record_file: &RecordFile,
) -> bool
    ensures { IsTrue result ↔ GoTogether samples.now out.now map_file.now record_file.now }
{
    let sizes = samples.volume.sizes();
    let out_sizes = out.volume.sizes();
    map_names_sizes(map_file, &sizes, &out_sizes)
        && record_file_names_sizes(record_file, &sizes, &out_sizes)
        && samples.form.goes_with(&out.form)
        && takes_form(record_file, &samples.form)
        && are_kinds_of_one_run(map_file, record_file)
}

// Whole runs over files of the system, and that none begins a file that another name of the run leads to.
use crate::disk::{Row, Step, wrong_step};
use crate::disk_grow::{MAP, PICTURE, SAMPLE};
use crate::tables::expect_none;

const FILES: &[Row<'static>] = &[
    ("s", Step::Put(SAMPLE)),
    // A sample that isn't there, and a picture in a folder that isn't there.
    ("none", Step::Run(("o", "m", "r"), 5, 0)),
    ("s", Step::Run(("none/o", "m", "r"), 6, 0)),
    ("m", Step::IsGone),
    // A file that had more bytes than the picture has them no longer.
    ("o", Step::Put(MAP)),
    ("s", Step::Run(("o", "m", "r"), 0, 3)),
];

#[test]
fn runs_over_files_of_the_system(rt: HostRuntime) {
    expect_none(&rt, wrong_step(&rt, "files", FILES));
}

const LINKS: &[Row<'static>] = &[
    ("s", Step::Put(SAMPLE)),
    // Links to the sample, one to a file that isn't there at first, and one to the folder.
    ("s", Step::Link("hard")),
    ("soft", Step::LeadTo("s")),
    ("new", Step::LeadTo("later")),
    ("here", Step::LeadTo(".")),
    // The picture is the sample.
    ("s", Step::Run(("hard", "m", "r"), 6, 0)),
    ("s", Step::Run(("soft", "m", "r"), 6, 0)),
    ("soft", Step::Run(("hard", "m", "r"), 6, 0)),
    ("s", Step::Run(("./s", "m", "r"), 6, 0)),
    ("s", Step::Run(("here/s", "m", "r"), 6, 0)),
    ("s", Step::Run(("here/hard", "m", "r"), 6, 0)),
    // The map is the sample, or the picture.
    ("s", Step::Run(("o", "hard", "r"), 6, 1)),
    ("s", Step::Run(("o", "soft", "r"), 6, 1)),
    ("s", Step::Run(("o", "here/s", "r"), 6, 1)),
    ("s", Step::Run(("o", "./o", "r"), 6, 1)),
    ("s", Step::Run(("o", "here/o", "r"), 6, 1)),
    ("s", Step::Run(("new", "later", "r"), 6, 1)),
    ("s", Step::Run(("later", "new", "r"), 6, 1)),
    // The record is the sample, the picture, or the map.
    ("s", Step::Run(("o", "m", "hard"), 6, 2)),
    ("s", Step::Run(("o", "m", "here/o"), 6, 2)),
    ("s", Step::Run(("o", "m", "./m"), 6, 2)),
    ("s", Step::Run(("o", "new", "later"), 6, 2)),
    // A file that isn't of the run is replaced, whatever leads to it.
    ("s", Step::Run(("here/later", "here/m", "r"), 0, 3)),
    ("later", Step::Holds(PICTURE)),
    ("m", Step::Holds(MAP)),
];

#[test]
fn begins_no_file_that_has_another_name(rt: HostRuntime) {
    expect_none(&rt, wrong_step(&rt, "links", LINKS));
}

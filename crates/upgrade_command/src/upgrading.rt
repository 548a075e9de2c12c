// The command that tells a map and a record in version 2.
ghost use Rattle.std.specs.Prelude.{◌≡◌, IfOk};
ghost use Rattle.shelf_traits.specs.Files.{OnlyReads, OnlyWrites};
ghost use Rattle.command.specs.Commands.{names_in};
ghost use Rattle.command.specs.Outcomes.{Leaves, Plans};
ghost use Rattle.command.specs.Writing.{WritesRun, text_names};
ghost use Rattle.upgrade_command.specs.Upgrades.{IsSoundPair, in_version_two, pair_files, pair_summary, upgrade_command};

use crate::pair::{Pair, pair_of, read_first_cuts, read_first_map};
use cert_file::Head;
use command::{Then, write_run};
use command_files::{CellMapFile, CutsFile, records_fit};
use job_words::UpgradeJob;
use shelf_traits::{Shelf, Sink};
use source_map::Version;
use std::alloc::Global;
use synth_report::{Fault, FileOf, Summary};

// Reads the map, and then the record.
fn plan<S: Shelf>(alloc: Global, job: &UpgradeJob, shelf: &mut S) -> Result<Pair, Fault>
    ensures planned { Plans (upgrade_command job.now) (pair_files job.now) pair_summary
        (S.state shelf.old) (S.state shelf.new) result }
    ensures sound { IfOk result IsSoundPair }
    ensures reads { OnlyReads (names_in (upgrade_command job.now).reads)
        (S.state shelf.old) (S.state shelf.new) }
{
    let map_file = match read_first_map(alloc, shelf, &job.map) {
        Ok(map_file) => map_file,
        Err(fault) => return Err(fault),
    };
    let record_file = match read_first_cuts(alloc, shelf, &job.record_file) {
        Ok(record_file) => record_file,
        // Given to `drop`, the end of the map is proved once, by itself.
        Err(fault) => {
            drop(map_file);
            return Err(fault);
        }
    };
    let pair = pair_of(map_file, record_file);
    records_fit(pair.cuts.as_slice());
    Ok(pair)
}

// The summary of a pair.
fn summary_of(pair: &Pair) -> Summary
    requires { IsSoundPair pair.now }
    ensures { result ≡ pair_summary pair.now }
{
    Summary::Upgrade {
        cells: pair.map.size().cells() as u64,
        cuts: pair.cuts.as_slice().len() as u64,
    }
}

// The head in version 2.
fn in_version_two(head: Head) -> Head
    ensures { result ≡ in_version_two head }
{
    Head {
        output: head.output,
        samples: head.samples,
        version: Version::Two,
    }
}

// Writes the map, the record, and the report.
fn write_pair<S: Shelf, O: Sink>(
    job: &UpgradeJob,
    pair: Pair,
    shelf: &mut S,
    out: &mut O,
) -> Result<Summary, Fault>
    requires { IsSoundPair pair }
    ensures wrote { WritesRun (pair_files job.now pair) (pair_summary pair)
        (S.state shelf.old) (S.state shelf.new) (O.state out.old) (O.state out.new) result }
    ensures writes { OnlyWrites (text_names (pair_files job.now pair))
        (S.state shelf.old) (S.state shelf.new) }
{
    let summary = summary_of(&pair);
    let Pair {
        map,
        samples,
        head,
        cuts,
    } = pair;
    let map_text = CellMapFile {
        part: FileOf::NewMap,
        name: &job.new_map,
        map: &map,
        samples,
        version: Version::Two,
    };
    let cuts_text = CutsFile {
        part: FileOf::NewRecord,
        name: &job.new_record_file,
        head: in_version_two(head),
        cuts: cuts.as_slice(),
    };
    write_run(&mut Then(map_text, cuts_text), summary, shelf, out)
}

/// Tells a map and a record in version 2: reads the cell map and then the cut records, each of version 1,
/// and writes the new map, then the new record, and the report. Whether the two belong together isn't asked.
/// All is read before the first file is begun, and no memory is taken after it.
///
/// Another version is refused as `Bad(Form(8))`, before anything that follows in the file, and another kind
/// as `Bad(Form(9))`; all else as `read_map` and `read_record_file` refuse it.
pub fn upgrade<S: Shelf, O: Sink>(
    alloc: Global,
    job: &UpgradeJob,
    shelf: &mut S,
    out: &mut O,
) -> Result<Summary, Fault>
    ensures { Leaves (upgrade_command job.now)
        (S.state shelf.old) (S.state shelf.new) (O.state out.old) (O.state out.new) result }
{
    let pair = plan(alloc, job, shelf)?;
    write_pair(job, pair, shelf, out)
}

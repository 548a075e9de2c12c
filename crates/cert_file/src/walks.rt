// Files of a walk record.
ghost use Rattle.std.specs.Prelude.{◌≡◌, ◌≤◌, ◌<◌, ◌*◌, ◌^◌, IfOk, OnErr, OnOk, length};
ghost use Rattle.shelf_traits.specs.Files.{Changes, OnlyReadsFile, OnlyWritesFile, WritesRose};
ghost use Rattle.shelf_traits.specs.Written.{HoldsPart, HoldsText};
ghost use Rattle.file_bytes.specs.Reading.{Follows};
ghost use Rattle.loop_walk.specs.Tables.{IsLength, table_count};
ghost use Rattle.cert_file.specs.RecordFiles.{IsRecordFile, IsRecordFileOf, IsWalkFile, ReadsToEnd, walk_file_form};
ghost use Rattle.cert_file.specs.WalkForms.{IsHeadOfVersionOne, IsWalkInForm, taps_number};
ghost use Rattle.cert_file.specs.WalkReading.{walk_file_read};
ghost use Rattle.cert_file.specs.declared.file.RecordFile.TheVariants.{Walk};
ghost use Rattle.limits.specs.declared.bounds.TheConstants.{MOST_LOOP_FRAMES};

use crate::file::{MAGIC, RecordFile, WALK};
use crate::number_lists::{fit_64, read_list_16};
use crate::walk_fields::{lawful_frames, read_walk_start};
use cells::Taps;
use file_bytes::{FileReader, FileWriter};
use items::Items;
use loop_walk::table_count;
use shelf_traits::{ReadError, Shelf, WriteFault};
use source_map::{Head, put_head};
use std::alloc::Global;

// How many taps a filter has.
fn taps_byte(taps: Taps) -> u8
    ensures { result ≡ taps_number taps }
{
    match taps {
        Taps::None0 => 0,
        Taps::Two => 2,
        Taps::Four => 4,
    }
}

/// Writes the file of a walk record, in version 1: the head, the walk's length, its filter and gap, its
/// frames, 2 bytes each, and the entries of its tables, 8 bytes each. It takes no memory. After a
/// `WriteFault` the shelf has failed, and the file may be cut off anywhere.
pub fn write_walk<S: Shelf>(
    head: &Head,
    taps: Taps,
    gap: u32,
    walk: &[u16],
    tables: &[u64],
    shelf: &mut S,
    name: &str,
) -> Result<(), WriteFault>
    requires { IsWalkInForm head.now gap walk.now tables.now }
    ensures ok { OnOk result (Changes (S.state shelf.old) (S.state shelf.new)
        (HoldsText name.now (walk_file_form head.now taps gap walk.now tables.now))) }
    ensures err { OnErr result (Changes (S.state shelf.old) (S.state shelf.new)
        (HoldsPart name.now (walk_file_form head.now taps gap walk.now tables.now))) }
    ensures writes { OnlyWritesFile name.now (S.state shelf.old) (S.state shelf.new) }
    ensures failed { OnErr result (WritesRose name.now (S.state shelf.old) (S.state shelf.new)) }
    ensures again { IsRecordFileOf (walk_file_form head.now taps gap walk.now tables.now)
        (Walk head.now taps gap walk.now tables.now) }
{
    let mut file = FileWriter::begin(shelf, name);
    put_head(&mut file, MAGIC, WALK, head, shelf, name);
    file.put_number(walk.len() as u32, shelf, name);
    file.put(&[taps_byte(taps)], shelf, name);
    file.put_number(gap as u16, shelf, name);
    file.put_all(walk, shelf, name);
    file.put_all(tables, shelf, name);
    file.finish(shelf, name)
}

// How many entries the tables for a length have, of so many frames.
fn entry_count(n: u32, length: u32) -> usize
    requires few { n ≤ MOST_LOOP_FRAMES }
    requires len { IsLength length }
    ensures count { result ≡ table_count length * (n * n) }
    ensures small { result ≤ 2 ^ 28 }
{
    table_count(length) as usize * (n as usize * n as usize)
}

/// Reads a walk record, from after the head of its file to the end of the file. Its refusals are those of
/// `read_record_file`.
pub fn read_walk_file<S: Shelf>(
    alloc: Global,
    file: &mut FileReader,
    head: Head,
    shelf: &mut S,
    name: &str,
) -> Result<RecordFile, ReadError>
    requires follows { Follows name.now (S.state shelf.old) file.old }
    requires room { file.old.at < 2 ^ 31 }
    requires head { IsHeadOfVersionOne head }
    ensures answer { ReadsToEnd (Unit {0}) name.now file.old.at (S.state shelf.old)
        (S.state shelf.new) (walk_file_read head) result }
    ensures form { IfOk result IsRecordFile }
    ensures walk { IfOk result IsWalkFile }
    ensures reads { OnlyReadsFile name.now (S.state shelf.old) (S.state shelf.new) }
{
    // The head has one sample.
    let n = head.samples.at(1).f;
    lawful_frames(n)?;
    let start = read_walk_start(file, shelf, name)?;
    let walk = read_list_16(alloc, file, start.length as usize, shelf, name)?;
    let tables = file.list(alloc, entry_count(n, start.length), shelf, name)?;
    fit_64(&tables);
    let tables = Items::from_vec(tables);
    file.end(shelf, name)?;
    Ok(RecordFile::Walk {
        head,
        taps: start.taps,
        gap: start.gap,
        walk,
        tables,
    })
}

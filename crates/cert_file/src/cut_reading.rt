// Cut records, as they are read.
ghost use Rattle.std.specs.Prelude.{◌≡◌, ◌≤◌, ◌<◌, ◌+◌, ◌*◌, ◌^◌, ℕ, length, Ok, IfOk, OnOk};
ghost use Rattle.shelf_traits.specs.Files.{OnlyReadsFile};
ghost use Rattle.cells.specs.Places.{cell_count};
ghost use Rattle.boxes.specs.Pairs.{pair_count};
ghost use Rattle.file_bytes.specs.Reading.{Follows};
ghost use Rattle.source_map.specs.Heads.{IsHead};
ghost use Rattle.source_map.specs.Readings.{ReadsFrom, list_read};
ghost use Rattle.cert_file.specs.CutForms.{IsBoxSize, IsCutInForm};
ghost use Rattle.cert_file.specs.CutReading.{cut_read, flow_read, flow_rule};
ghost use Rattle.cert_file.specs.RecordFiles.{AreCuts, IsRecordFile, ReadsToEnd, cuts_file_read};
ghost use Rattle.limits.specs.declared.bounds.TheConstants.{MOST_BOX_CELLS};

use crate::choices::read_choice;
use crate::cut_fields::{read_box_size, read_corner, read_from};
use crate::file::{RecordFile, read_count};
use cells::{Box3, Size, Sizes};
use cut_check::{CutRecord, Flow};
use file_bytes::{FileReader, make_room};
use items::Items;
use map_canvas::Placement;
use shelf_traits::{ReadError, Shelf};
use source_map::{Head, Version};
use std::alloc::Global;

// A flow, of two numbers.
fn flow_of(piece: [u8; 4]) -> Flow
    ensures { (at : ℕ) → Ok result ≡ flow_rule at piece }
{
    let [a, b, c, d] = piece;
    Flow {
        x: u16::from_be_bytes([a, b]).cast_signed(),
        y: u16::from_be_bytes([c, d]).cast_signed(),
    }
}

// Reads so many flows.
fn read_flows<S: Shelf>(
    alloc: Global,
    file: &mut FileReader,
    count: usize,
    shelf: &mut S,
    name: &str,
) -> Result<Items<Flow>, ReadError>
    requires follows { Follows name.now (S.state shelf.old) file.old }
    requires room { file.old.at + 4 * count < 2 ^ 63 }
    ensures answer { ReadsFrom (Unit {0}) name.now file.old.at (S.state shelf.old)
        (S.state shelf.new) file.new (list_read flow_read count) result }
    ensures count { IfOk result (λ flows. length flows ≡ count) }
    ensures place { OnOk result (file.new.at ≡ file.old.at + 4 * count) }
    ensures reads { OnlyReadsFile name.now (S.state shelf.old) (S.state shelf.new) }
{
    let mut flows = Vec::new(alloc);
    for i in 0..count {
        make_room(&mut flows, count - i)?;
        let mut piece = [0; 4];
        file.take(&mut piece, shelf, name)?;
        flows.push_reserved(flow_of(piece));
    }
    Ok(Items::from_vec(flows))
}

/// How many cells the box of a record has. Its axes may be longer than those of a volume.
pub fn cells_of(size: Size) -> usize
    requires axes { IsBoxSize size }
    requires few { cell_count size ≤ MOST_BOX_CELLS }
    ensures { result ≡ cell_count size }
{
    size.w as usize * (size.h as usize * size.f as usize)
}

// How many pairs a box has: on each axis, the cells less those of its last layer. Its axes may be longer
// than those of a volume.
fn pairs_of(size: Size) -> usize
    requires axes { IsBoxSize size }
    requires few { cell_count size ≤ MOST_BOX_CELLS }
    ensures pairs { result ≡ pair_count size }
    ensures few { result ≤ 3 * cell_count size }
{
    let cells = cells_of(size);
    let (w, h, f) = (size.w as usize, size.h as usize, size.f as usize);
    (cells - h * f) + (cells - w * f) + (cells - w * h)
}

/// Reads a cut record, after boxes of `before` cells. Its refusals are those of `read_record_file`.
pub fn read_cut<S: Shelf>(
    alloc: Global,
    file: &mut FileReader,
    version: Version,
    samples: &Sizes,
    before: u64,
    shelf: &mut S,
    name: &str,
) -> Result<CutRecord, ReadError>
    requires follows { Follows name.now (S.state shelf.old) file.old }
    requires room { file.old.at < 2 ^ 61 }
    requires before { before ≤ MOST_BOX_CELLS }
    ensures answer { ReadsFrom (Unit {0}) name.now file.old.at (S.state shelf.old)
        (S.state shelf.new) file.new (cut_read version samples.now before) result }
    ensures form { IfOk result (IsCutInForm samples.now) }
    ensures cells { IfOk result (λ cut.
        before + cell_count cut.placement.rect.size ≤ MOST_BOX_CELLS) }
    ensures place { IfOk result (λ cut.
        file.new.at ≤ file.old.at + 34 * cell_count cut.placement.rect.size) }
    ensures reads { OnlyReadsFile name.now (S.state shelf.old) (S.state shelf.new) }
{
    let corner = read_corner(file, shelf, name)?;
    let size = read_box_size(file, before, shelf, name)?;
    let from = read_from(file, version, samples, shelf, name)?;
    let choice = read_choice(alloc, file, cells_of(size), shelf, name)?;
    let flows = read_flows(alloc, file, pairs_of(size), shelf, name)?;
    let rect = Box3 { corner, size };
    Ok(CutRecord {
        placement: Placement { rect, from },
        choice,
        flows,
    })
}

// Reads cut records, from after a head to the end of the file.
pub(crate) fn read_cuts_file<S: Shelf>(
    alloc: Global,
    file: &mut FileReader,
    head: Head,
    shelf: &mut S,
    name: &str,
) -> Result<RecordFile, ReadError>
    requires follows { Follows name.now (S.state shelf.old) file.old }
    requires room { file.old.at < 2 ^ 31 }
    requires head { IsHead head }
    ensures answer { ReadsToEnd (Unit {0}) name.now file.old.at (S.state shelf.old)
        (S.state shelf.new) (cuts_file_read head) result }
    ensures form { IfOk result IsRecordFile }
    ensures cuts { IfOk result AreCuts }
    ensures reads { OnlyReadsFile name.now (S.state shelf.old) (S.state shelf.new) }
{
    let count = read_count(file, shelf, name)?;
    let mut cuts = Vec::new(alloc);
    let mut before = 0;
    for i in 0..count {
        make_room(&mut cuts, (count - i) as usize)?;
        let cut = read_cut(
            alloc,
            file,
            head.version,
            &head.samples,
            before,
            shelf,
            name,
        )?;
        before += cells_of(cut.placement.rect.size) as u64;
        cuts.push_reserved(cut);
    }
    file.end(shelf, name)?;
    let cuts = Items::from_vec(cuts);
    Ok(RecordFile::Cuts { head, cuts })
}

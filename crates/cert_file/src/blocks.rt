// Files of block records.
ghost use Rattle.std.specs.Prelude.{◌≡◌, ◌≤◌, ◌<◌, ◌+◌, ◌*◌, ◌^◌, IfOk, IfSome, OnErr, OnOk};
ghost use Rattle.shelf_traits.specs.Files.{Changes, OnlyReadsFile, OnlyWritesFile, WritesRose};
ghost use Rattle.shelf_traits.specs.Written.{HoldsPart, HoldsText};
ghost use Rattle.file_bytes.specs.Reading.{Follows};
ghost use Rattle.file_bytes.specs.Writing.{Puts};
ghost use Rattle.cells.specs.Places.{cell_count};
ghost use Rattle.block_check.specs.Blocks.{HasColumns};
ghost use Rattle.source_map.specs.Readings.{ReadsFrom};
ghost use Rattle.cert_file.specs.BlockForms.{IsBlockInForm, IsWideBlock, IsWideBoundary, block_form, block_start_form, boundary_form, spot_field};
ghost use Rattle.cert_file.specs.BlockReading.{IsSpot, block_read};
ghost use Rattle.cert_file.specs.WalkForms.{IsHeadOfVersionOne};
ghost use Rattle.cert_file.specs.RecordFiles.{AreBlocksInForm, AreBlocksInLimits, IsRecordFile, IsRecordFileOf, ReadsToEnd, blocks_file_read, blocks_form};
ghost use Rattle.limits.specs.declared.bounds.TheConstants.{MOST_BOX_CELLS};
ghost use Rattle.cert_file.specs.declared.file.RecordFile.TheVariants.{Blocks};

use crate::block_fields::{read_block_start, read_side};
use crate::cut_reading::cells_of;
use crate::file::{BLOCKS, MAGIC, RecordFile, read_count};
use crate::number_lists::{fit_16, fit_32};
use block_check::BlockRecord;
use cells::At;
use file_bytes::{FileReader, FileWriter, make_room};
use items::Items;
use shelf_traits::{ReadError, Shelf, WriteFault};
use source_map::{Head, put_head};
use std::alloc::Global;
use strip_boundary::BoundaryRecord;

// A place in frame 0 in the file's form.
fn spot_bytes(p: At) -> [u8; 4]
    requires { IsSpot p }
    ensures { result ≡ spot_field p }
{
    let [a, b] = (p.x as u16).to_be_bytes();
    let [c, d] = (p.y as u16).to_be_bytes();
    [a, b, c, d]
}

// What a block record begins with, in the file's form.
fn start_bytes(block: &BlockRecord) -> [u8; 13]
    requires { IsBlockInForm block.now }
    ensures { result ≡ block_start_form block.now }
{
    let size = block.placement.rect.size;
    let [a, b, c, d] = spot_bytes(block.placement.rect.corner);
    let [e, f] = (size.w as u16).to_be_bytes();
    let [g, h] = (size.h as u16).to_be_bytes();
    let [i, j, k, l] = spot_bytes(block.placement.from);
    let flags = u8::from(block.left.is_some()) + 2 * u8::from(block.top.is_some());
    [a, b, c, d, e, f, g, h, i, j, k, l, flags]
}

// Puts the boundary on a side, if there is one.
fn put_side<S: Shelf>(
    file: &mut FileWriter,
    rows: u32,
    most: u32,
    boundary: &Option<BoundaryRecord>,
    shelf: &mut S,
    name: &str,
)
    requires columns { IfSome boundary.now (HasColumns rows most) }
    requires some { 1 ≤ rows }
    requires few { most < 2 ^ 16 }
    ensures put { Puts name.now (boundary_form rows boundary.now) (S.state shelf.old)
        (S.state shelf.new) file.old file.new }
    ensures wide { IfSome boundary.now IsWideBoundary }
{
    let Some(boundary) = boundary else {
        return;
    };
    let path = boundary.path.as_slice();
    let sums = boundary.sums.as_slice();
    fit_16(path);
    fit_32(sums);
    let columns = (sums.len() / rows as usize) as u16;
    file.put_number(columns, shelf, name);
    file.put_all(path, shelf, name);
    file.put_all(sums, shelf, name);
}

// Puts a block record.
#[tactic(auto, unfolding(crate::specs::BlockForms::block_form))]
fn put_block<S: Shelf>(file: &mut FileWriter, block: &BlockRecord, shelf: &mut S, name: &str)
    requires { IsBlockInForm block.now }
    ensures put { Puts name.now (block_form block.now) (S.state shelf.old) (S.state shelf.new)
        file.old file.new }
    ensures wide { IsWideBlock block.now }
{
    let size = block.placement.rect.size;
    file.put(&start_bytes(block), shelf, name);
    put_side(file, size.h, size.w, &block.left, shelf, name);
    put_side(file, size.w, size.h, &block.top, shelf, name);
}

/// Writes the file of block records, in version 1: the head, how many there are, and of each record
/// corner and size of its box (x and y, w and h), where its new sources begin (x and y), which boundaries
/// it has, and of the left and then of the top one the strip's columns, the path, 2 bytes a strip row, and
/// the sums, 4 bytes a strip cell. It takes no memory. After a `WriteFault` the shelf has failed, and the
/// file may be cut off anywhere.
pub fn write_blocks<S: Shelf>(
    head: &Head,
    blocks: &[BlockRecord],
    shelf: &mut S,
    name: &str,
) -> Result<(), WriteFault>
    requires { AreBlocksInForm head.now blocks.now }
    ensures ok { OnOk result (Changes (S.state shelf.old) (S.state shelf.new)
        (HoldsText name.now (blocks_form head.now blocks.now))) }
    ensures err { OnErr result (Changes (S.state shelf.old) (S.state shelf.new)
        (HoldsPart name.now (blocks_form head.now blocks.now))) }
    ensures writes { OnlyWritesFile name.now (S.state shelf.old) (S.state shelf.new) }
    ensures failed { OnErr result (WritesRose name.now (S.state shelf.old) (S.state shelf.new)) }
    ensures again { AreBlocksInLimits head.now blocks.now →
        IsRecordFileOf (blocks_form head.now blocks.now) (Blocks head.now blocks.now) }
{
    let mut file = FileWriter::begin(shelf, name);
    put_head(&mut file, MAGIC, BLOCKS, head, shelf, name);
    file.put_number(blocks.len() as u32, shelf, name);
    for block in blocks {
        put_block(&mut file, block, shelf, name);
    }
    file.finish(shelf, name)
}

/// Reads a block record, after boxes of `before` cells. Its refusals are those of `read_record_file`.
pub fn read_block<S: Shelf>(
    alloc: Global,
    file: &mut FileReader,
    before: u64,
    shelf: &mut S,
    name: &str,
) -> Result<BlockRecord, ReadError>
    requires follows { Follows name.now (S.state shelf.old) file.old }
    requires room { file.old.at < 2 ^ 60 }
    requires before { before ≤ MOST_BOX_CELLS }
    ensures answer { ReadsFrom (Unit {0}) name.now file.old.at (S.state shelf.old)
        (S.state shelf.new) file.new (block_read before) result }
    ensures form { IfOk result IsBlockInForm }
    ensures cells { IfOk result (λ block.
        before + cell_count block.placement.rect.size ≤ MOST_BOX_CELLS) }
    ensures place { IfOk result (λ block.
        file.new.at ≤ file.old.at + 29 * cell_count block.placement.rect.size) }
    ensures reads { OnlyReadsFile name.now (S.state shelf.old) (S.state shelf.new) }
{
    let start = read_block_start(file, before, shelf, name)?;
    let size = start.placement.rect.size;
    let (w, h) = (size.w, size.h);
    let left = read_side(alloc, file, start.flags % 2 == 1, h, w, shelf, name)?;
    let top = read_side(alloc, file, 2 <= start.flags, w, h, shelf, name)?;
    Ok(BlockRecord {
        placement: start.placement,
        left,
        top,
    })
}

// Reads block records, from after a head to the end of the file.
pub(crate) fn read_blocks_file<S: Shelf>(
    alloc: Global,
    file: &mut FileReader,
    head: Head,
    shelf: &mut S,
    name: &str,
) -> Result<RecordFile, ReadError>
    requires follows { Follows name.now (S.state shelf.old) file.old }
    requires room { file.old.at < 2 ^ 31 }
    requires head { IsHeadOfVersionOne head }
    ensures answer { ReadsToEnd (Unit {0}) name.now file.old.at (S.state shelf.old)
        (S.state shelf.new) (blocks_file_read head) result }
    ensures form { IfOk result IsRecordFile }
    ensures reads { OnlyReadsFile name.now (S.state shelf.old) (S.state shelf.new) }
{
    let count = read_count(file, shelf, name)?;
    let mut blocks = Vec::new(alloc);
    let mut before = 0;
    for i in 0..count {
        make_room(&mut blocks, (count - i) as usize)?;
        let block = read_block(alloc, file, before, shelf, name)?;
        before += cells_of(block.placement.rect.size) as u64;
        blocks.push_reserved(block);
    }
    file.end(shelf, name)?;
    let blocks = Items::from_vec(blocks);
    Ok(RecordFile::Blocks { head, blocks })
}

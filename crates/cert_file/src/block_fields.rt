// The fields of a block record, as they are read.
ghost use Rattle.std.specs.Prelude.{◌≡◌, ◌≤◌, ◌<◌, ◌+◌, ◌*◌, ◌^◌, IfOk, IfErr, IfSome, OnOk};
ghost use Rattle.shelf_traits.specs.Files.{OnlyReadsFile};
ghost use Rattle.file_bytes.specs.Reading.{Follows};
ghost use Rattle.source_map.specs.Readings.{IsRefusal, ReadsFrom};
ghost use Rattle.cert_file.specs.BlockReading.{IsStartAfter, IsBoundaryRead, IsSpot, block_size_read, block_start_read, cols_rule, flags_rule, side_read, spot_read, spot_rule};
ghost use Rattle.cert_file.specs.CutReading.{IsBoxAfter};
ghost use Rattle.limits.specs.declared.bounds.TheConstants.{MOST_BOX_CELLS};

use crate::cut_fields::{form, lawful_box, read_box_axis};
use crate::number_lists::{fit_32, read_list_16};
use cells::{At, Box3, Size};
use file_bytes::FileReader;
use items::Items;
use map_canvas::Placement;
use shelf_traits::{ReadError, Shelf};
use std::alloc::Global;
use strip_boundary::BoundaryRecord;

// What a block record begins with.
#[derive(Drop)]
pub struct BlockStart {
    pub placement: Placement,
    pub flags: u8,
}

// A place in frame 0, of two numbers.
fn spot_of(piece: [u8; 4], at: u64) -> Result<At, ReadError>
    ensures spot { result ≡ spot_rule at piece }
    ensures short { IfOk result IsSpot }
    ensures refusal { IfErr result IsRefusal }
{
    let [a, b, c, d] = piece;
    Ok(At {
        x: i32::from(u16::from_be_bytes([a, b])),
        y: i32::from(u16::from_be_bytes([c, d])),
        f: 0,
    })
}

// Flags, if they tell of a left strip and a top strip alone.
fn lawful_flags(n: u8, at: u64) -> Result<u8, ReadError>
    ensures flags { result ≡ flags_rule at n }
    ensures refusal { IfErr result IsRefusal }
{
    if 3 < n { form(at) } else { Ok(n) }
}

// The columns of a strip, if they are from 1 to so many.
fn lawful_cols(n: u16, most: u32, at: u64) -> Result<u16, ReadError>
    ensures cols { result ≡ cols_rule most at n }
    ensures within { IfOk result (λ n. (1 ≤ n) × (n ≤ most)) }
    ensures refusal { IfErr result IsRefusal }
{
    if n == 0 || most < u32::from(n) {
        form(at)
    } else {
        Ok(n)
    }
}

// Reads a place in frame 0.
fn read_spot<S: Shelf>(file: &mut FileReader, shelf: &mut S, name: &str) -> Result<At, ReadError>
    requires follows { Follows name.now (S.state shelf.old) file.old }
    requires room { file.old.at < 2 ^ 62 }
    ensures answer { ReadsFrom ⊥ name.now file.old.at (S.state shelf.old) (S.state shelf.new)
        file.new spot_read result }
    ensures short { IfOk result IsSpot }
    ensures place { OnOk result (file.new.at ≡ file.old.at + 4) }
    ensures reads { OnlyReadsFile name.now (S.state shelf.old) (S.state shelf.new) }
{
    let at = file.place();
    let mut piece = [0; 4];
    match file.take(&mut piece, shelf, name) {
        Ok(()) => spot_of(piece, at),
        Err(error) => Err(error),
    }
}

// Reads the size of a block, after boxes of so many cells.
fn read_block_size<S: Shelf>(
    file: &mut FileReader,
    before: u64,
    shelf: &mut S,
    name: &str,
) -> Result<Size, ReadError>
    requires follows { Follows name.now (S.state shelf.old) file.old }
    requires room { file.old.at < 2 ^ 62 }
    requires before { before ≤ MOST_BOX_CELLS }
    ensures answer { ReadsFrom ⊥ name.now file.old.at (S.state shelf.old) (S.state shelf.new)
        file.new (block_size_read before) result }
    ensures within { IfOk result (IsBoxAfter before) }
    ensures frame { IfOk result (λ size. size.f ≡ 1) }
    ensures place { OnOk result (file.new.at ≡ file.old.at + 4) }
    ensures reads { OnlyReadsFile name.now (S.state shelf.old) (S.state shelf.new) }
{
    let w = read_box_axis(file, shelf, name)?;
    let h = read_box_axis(file, shelf, name)?;
    lawful_box(before, w, h, 1)
}

// Reads what a block record begins with, after boxes of so many cells.
pub(crate) fn read_block_start<S: Shelf>(
    file: &mut FileReader,
    before: u64,
    shelf: &mut S,
    name: &str,
) -> Result<BlockStart, ReadError>
    requires follows { Follows name.now (S.state shelf.old) file.old }
    requires room { file.old.at < 2 ^ 61 }
    requires before { before ≤ MOST_BOX_CELLS }
    ensures answer { ReadsFrom ⊥ name.now file.old.at (S.state shelf.old) (S.state shelf.new)
        file.new (block_start_read before) result }
    ensures within { IfOk result (IsStartAfter before) }
    ensures place { OnOk result (file.new.at ≡ file.old.at + 13) }
    ensures reads { OnlyReadsFile name.now (S.state shelf.old) (S.state shelf.new) }
{
    let corner = read_spot(file, shelf, name)?;
    let size = read_block_size(file, before, shelf, name)?;
    let from = read_spot(file, shelf, name)?;
    let at = file.place();
    let n = file.u8(shelf, name)?;
    let flags = lawful_flags(n, at)?;
    let rect = Box3 { corner, size };
    Ok(BlockStart {
        placement: Placement { rect, from },
        flags,
    })
}

// Reads the boundary on a side, if there is one, through a strip of so many strip rows, and of so many
// strip columns at most.
pub(crate) fn read_side<S: Shelf>(
    alloc: Global,
    file: &mut FileReader,
    present: bool,
    rows: u32,
    most: u32,
    shelf: &mut S,
    name: &str,
) -> Result<Option<BoundaryRecord>, ReadError>
    requires follows { Follows name.now (S.state shelf.old) file.old }
    requires some { 1 ≤ rows }
    requires room { file.old.at < 2 ^ 61 }
    requires few { rows * most ≤ MOST_BOX_CELLS }
    ensures answer { ReadsFrom (Unit {0}) name.now file.old.at (S.state shelf.old)
        (S.state shelf.new) file.new (side_read present rows most) result }
    ensures form { IfOk result (λ side. IfSome side (IsBoundaryRead rows most)) }
    ensures place { OnOk result (file.new.at ≤ file.old.at + 8 * (rows * most)) }
    ensures reads { OnlyReadsFile name.now (S.state shelf.old) (S.state shelf.new) }
{
    if !present {
        return Ok(None);
    }
    let at = file.place();
    let n = file.number(shelf, name)?;
    let cols = lawful_cols(n, most, at)?;
    let path = read_list_16(alloc, file, rows as usize, shelf, name)?;
    let count = rows as usize * cols as usize;
    let sums = file.list(alloc, count, shelf, name)?;
    fit_32(&sums);
    let sums = Items::from_vec(sums);
    Ok(Some(BoundaryRecord { path, sums }))
}

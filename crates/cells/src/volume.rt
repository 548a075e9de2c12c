// A volume over one buffer of bytes.
ghost use Rattle.std.specs.Prelude.{◌≡◌, ◌≤◌, ◌<◌, ◌*◌, ◌+◌, ◌++◌, ◌↔◌, IfOk, OnOk, OnErr, IfSome, IsTrue, Some, option_copied, length, [], ◌∷◌, take, drop, replicate};
ghost use Rattle.cells.specs.Places.{IsSmall, cell_count};
ghost use Rattle.cells.specs.Parts.{count_from};
ghost use Rattle.cells.specs.PartLists.{parts_of};
ghost use Rattle.cells.specs.Cells.{cell_at, cells_of, index_of, put_cell, put_row, put_run, row_at, blank, sizes_of, volume_of, bytes_of, count_of, with_part, HasRun, Holds, IsInsideOf, IsOnePart, IsVolume};

use crate::parts::{More, index_along, lies_along};
use crate::{At, Box3, Size, Sizes};
use limits::{MOST_CELLS, MOST_CHANNELS, MOST_PARTS};
use std::alloc::{AllocError, Global};
use std::marker::Model;

/// A picture or a clip: w x h x f cells of k samples each, one byte a sample, in one buffer of
/// w*h*f*k bytes, in raster order. An axis has 1 to 4,096 cells, a volume at most 2^25, and a cell 1
/// to 6 samples.
#[derive(Drop)]
pub struct Volume {
    // of the first part
    size: Size,
    // of the parts after it
    more: More,
    k: u32,
    bytes: Vec<u8>,
}

impl Model for Volume {
    ghost use Rattle.cells.specs.Cells.{Cells, volume_over};
    ghost use Rattle.cells.specs.Buffers.{IsBuffer};

    ghost Value = { Cells };

    ghost view = { λ a. volume_over a.size a.more a.k a.bytes.items };

    ghost invariant = { λ a. IsBuffer a.size a.more a.k a.bytes.items };
}

// So many bytes from a place on.
fn piece_of(bytes: &[u8], start: usize, len: usize) -> &[u8]
    requires { start + len ≤ length bytes.now }
    ensures piece { result.now ≡ take len (drop start bytes.now) }
    ensures len { length result.now ≡ len }
{
    &bytes[start..start + len]
}

// Writes a piece over the bytes from a place on.
fn put_at(bytes: &mut [u8], start: usize, piece: &[u8])
    requires { start + length piece.now ≤ length bytes.old }
    ensures { bytes.new ≡ put_run bytes.old (Some start) piece.now }
{
    bytes[start..start + piece.len()].copy_from_slice(piece);
}

// Makes so many bytes the same, from a place on.
fn fill_at(bytes: &mut [u8], start: usize, len: usize, byte: u8)
    requires { start + len ≤ length bytes.old }
    ensures { bytes.new ≡ put_run bytes.old (Some start) (replicate len byte) }
{
    for i in 0..len {
        bytes[start + i] = byte;
    }
}

impl Volume {
    /// A volume of that size with k bytes of 0 in each cell. The one error is out of memory.
    pub fn make(alloc: Global, size: Size, k: u32) -> Result<Volume, AllocError>
        requires small { IsSmall size }
        requires samples { (1 ≤ k) × (k ≤ MOST_CHANNELS) }
        ensures { IfOk result (λ v. v ≡ blank size k) }
    {
        let bytes = vec![in alloc; 0u8; k as usize * size.cells()]?;
        let more = More::none();
        Ok(Volume {
            size,
            more,
            k,
            bytes,
        })
    }

    /// The volume whose cells have these w*h*f*k bytes, k bytes a cell, one cell after another in
    /// raster order. It keeps the buffer and takes no memory.
    pub fn from_bytes(size: Size, k: u32, bytes: Vec<u8>) -> Volume
        requires small { IsSmall size }
        requires samples { (1 ≤ k) × (k ≤ MOST_CHANNELS) }
        requires whole { length bytes.items ≡ k * cell_count size }
        ensures volume { result ≡ volume_of size k bytes.items }
        ensures bytes { bytes_of result ≡ bytes.items }
    {
        let more = More::none();
        Volume {
            size,
            more,
            k,
            bytes,
        }
    }

    /// The number of cells on each axis.
    pub fn size(&self) -> Size
        requires { IsOnePart self.now }
        ensures size { result ≡ self.now.size }
        ensures volume { IsVolume self.now }
    {
        // The slice is taken for its contract only: it shows the prover that its items are bytes,
        // as `volume` says.
        let bytes = self.bytes.as_slice();
        let size = self.size;
        let _bytes = bytes;
        size
    }

    /// The number k of samples, and bytes, of a cell.
    pub fn samples(&self) -> u32
        ensures samples { result ≡ self.now.k }
        ensures volume { IsVolume self.now }
    {
        // The slice is taken for its contract only: it shows the prover that its items are bytes,
        // as `volume` says.
        let bytes = self.bytes.as_slice();
        let k = self.k;
        let _bytes = bytes;
        k
    }

    /// All w*h*f*k bytes, one cell after another in raster order.
    pub fn bytes(&self) -> &[u8]
        ensures { result.now ≡ bytes_of self.now }
    {
        self.bytes.as_slice()
    }

    // The index of a cell among the cells of all parts. A place of the first part costs no more than in
    // a volume of one part.
    fn index_of(&self, at: At) -> Option<usize>
        ensures index { result ≡ index_of self.now at }
        ensures below { IfSome result (λ i. i < count_from self.now.size self.now.more) }
    {
        match self.size.index_of(at) {
            Some(i) => Some(i),
            None => index_along(self.size, self.more.as_slice(), at),
        }
    }

    /// The k bytes of a cell; None exactly outside the volume.
    pub fn cell(&self, at: At) -> Option<&[u8]>
        ensures bytes { option_copied result ≡ cell_at self.now at }
        ensures samples { IfSome result (λ cell. length cell.now ≡ self.now.k) }
    {
        let i = self.index_of(at)?;
        let k = self.k as usize;
        Some(piece_of(&self.bytes, k * i, k))
    }

    /// Puts k other bytes into a cell. All other cells stay.
    pub fn set_cell(&mut self, at: At, bytes: &[u8])
        requires inside { IsInsideOf self.old at }
        requires samples { length bytes.now ≡ self.old.k }
        ensures { self.new ≡ put_cell self.old at bytes.now }
    {
        let k = self.k as usize;
        let i = self.index_of(at).unwrap();
        put_at(&mut self.bytes, k * i, bytes);
    }

    /// The k*w bytes of a run of w cells along X, from a place on; the whole run lies inside.
    pub fn row(&self, at: At, w: u32) -> &[u8]
        requires { HasRun self.now at w }
        ensures bytes { result.now ≡ row_at self.now at w }
        ensures len { length result.now ≡ self.now.k * w }
    {
        let k = self.k as usize;
        let i = self.index_of(at).unwrap();
        piece_of(&self.bytes, k * i, k * w as usize)
    }

    /// Puts other cells into a run of w cells along X, from a place on; the whole run lies inside. It has
    /// their k*w bytes, one cell after another. All other cells stay.
    pub fn set_row(&mut self, at: At, w: u32, bytes: &[u8])
        requires run { HasRun self.old at w }
        requires samples { length bytes.now ≡ self.old.k * w }
        ensures { self.new ≡ put_row self.old at (cells_of self.old.k w bytes.now) }
    {
        let k = self.k as usize;
        let first = self.index_of(at).unwrap();
        put_at(&mut self.bytes, k * first, bytes);
    }

    /// Makes each byte of a run of w cells along X the same, from a place on; the whole run lies inside.
    /// All other cells stay.
    pub fn fill_row(&mut self, at: At, w: u32, byte: u8)
        requires run { HasRun self.old at w }
        ensures { self.new ≡ put_row self.old at (replicate w (replicate self.old.k byte)) }
    {
        let k = self.k as usize;
        let first = self.index_of(at).unwrap();
        fill_at(&mut self.bytes, k * first, k * w as usize, byte);
    }

    /// Whether each place of a box is inside the volume. A box without cells has no place that isn't.
    pub fn holds(&self, rect: &Box3) -> bool
        ensures { IsTrue result ↔ Holds self.now rect.now.corner rect.now.size }
    {
        !rect.has_cells() || lies_along(self.size, self.more.as_slice(), rect)
    }

    /// The sizes of all parts.
    pub fn sizes(&self) -> Sizes
        ensures { result ≡ sizes_of self.now }
    {
        Sizes {
            first: self.size,
            more: self.more.copied(),
        }
    }

    /// Puts the one part of another volume after the parts of this one, with one empty frame between.
    /// The one error is out of memory, and leaves the volume as it was.
    pub fn add_part(&mut self, part: &Volume) -> Result<(), AllocError>
        requires samples { part.now.k ≡ self.old.k }
        requires one { IsOnePart part.now }
        requires few { length (sizes_of self.old) < MOST_PARTS }
        requires room { count_of self.old + count_of part.now ≤ MOST_CELLS }
        ensures ok { OnOk result (self.new ≡ with_part self.old part.now) }
        ensures parts { OnOk result (parts_of self.new ≡ parts_of self.old ++ part.now ∷ []) }
        ensures err { OnErr result (self.new ≡ self.old) }
    {
        self.bytes.extend_from_slice(&part.bytes)?;
        self.more.push(part.size);
        Ok(())
    }
}

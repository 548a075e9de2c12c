// Distances of each two frames of a clip.
ghost use Rattle.std.specs.Prelude.{◌≡◌, ◌≤◌, ◌<◌, ◌+◌, ◌*◌, ◌/◌, ◌%◌, ◌^◌, IfOk, All, length};
ghost use Rattle.cells.specs.Cells.{IsOnePart};
ghost use Rattle.cells.specs.Places.{cell_count};
ghost use Rattle.frame_distance.specs.Frames.{frame_distance, frame_in, distance_in};
ghost use Rattle.frame_distance.specs.Tables.{AreDistancesOf, IsDistanceTable, distance_at, distances_of, entries_of};

use cells::Volume;
use lane_kernels::ssd;
use limits::{MOST_CHANNELS, MOST_LOOP_FRAMES, MOST_SAMPLE_CELLS};
use std::alloc::{AllocError, Global};
use std::marker::Model;

// The most bytes of a frame: one of all cells of a clip.
const MOST_FRAME_BYTES: usize = MOST_SAMPLE_CELLS as usize * MOST_CHANNELS as usize;

/// The distance of each two frames of a clip: from 1 to 256 frames, each number below 2^43.
#[derive(Drop)]
pub struct Table {
    frames: u32,
    numbers: Vec<u64>,
}

impl Model for Table {
    ghost use Rattle.frame_distance.specs.Tables.{Distances, IsDistanceTable};

    ghost Value = { Distances };

    ghost view = { λ a. record { frames = a.frames; numbers = a.numbers.items } };

    ghost invariant = { λ a. IsDistanceTable
        (record { frames = a.frames; numbers = a.numbers.items }) };
}

impl Table {
    /// The number of frames.
    pub fn frames(&self) -> u32
        ensures frames { result ≡ self.now.frames }
        ensures table { IsDistanceTable self.now }
    {
        let numbers = self.numbers.as_slice();
        let frames = self.frames;
        let _numbers = numbers;
        frames
    }

    /// The distance of two frames.
    pub fn at(&self, i: u32, j: u32) -> u64
        requires row { i < self.now.frames }
        requires column { j < self.now.frames }
        ensures distance { result ≡ distance_at self.now i j }
        ensures below { result < 2 ^ 43 }
    {
        self.numbers[i as usize * self.frames as usize + j as usize]
    }
}

// The bytes of a frame.
fn frame(bytes: &[u8], len: usize, i: usize) -> &[u8]
    requires { len * i + len ≤ length bytes.now }
    ensures bytes { result.now ≡ frame_in bytes.now len i }
    ensures len { length result.now ≡ len }
{
    &bytes[len * i..len * i + len]
}

// The next entry of the table of n frames of `len` bytes. D is symmetric, so an entry below the
// diagonal is read from the rows before, and each two frames are summed once.
fn next_distance(bytes: &[u8], len: usize, n: usize, so_far: &[u64]) -> u64
    requires frames { length bytes.now ≡ len * n }
    requires len { len ≤ MOST_FRAME_BYTES }
    requires more { length so_far.now < n * n }
    requires so_far { so_far.now ≡ entries_of n (distance_in bytes.now len) (length so_far.now) }
    requires small { All (λ number. number < 2 ^ 43) so_far.now }
    ensures distance { result ≡
        distance_in bytes.now len (length so_far.now / n) (length so_far.now % n) }
    ensures below { result < 2 ^ 43 }
{
    let i = so_far.len() / n;
    let j = so_far.len() % n;
    if j < i {
        so_far[j * n + i]
    } else if j == i {
        0
    } else {
        ssd(frame(bytes, len, i), frame(bytes, len, j))
    }
}

// The table of n frames of `len` bytes, row by row.
fn all_distances(alloc: Global, bytes: &[u8], len: usize, n: usize) -> Result<Vec<u64>, AllocError>
    requires frames { length bytes.now ≡ len * n }
    requires len { len ≤ MOST_FRAME_BYTES }
    requires few { n ≤ MOST_LOOP_FRAMES }
    ensures numbers { IfOk result (λ numbers.
        numbers.items ≡ entries_of n (distance_in bytes.now len) (n * n)) }
    ensures small { IfOk result (λ numbers. All (λ number. number < 2 ^ 43) numbers.items) }
{
    let mut numbers = Vec::with_capacity(alloc, n * n)?;
    for _k in 0..n * n {
        let number = next_distance(bytes, len, n, numbers.as_slice());
        numbers.push(number)?;
    }
    Ok(numbers)
}

/// The distance of each two frames of a clip of at most 256 frames and 2^23 cells: the sum of squared
/// differences over their samples.
pub fn distances(alloc: Global, clip: &Volume) -> Result<Table, AllocError>
    requires part { IsOnePart clip.now }
    requires frames { clip.now.size.f ≤ MOST_LOOP_FRAMES }
    requires cells { cell_count clip.now.size ≤ MOST_SAMPLE_CELLS }
    ensures table { IfOk result (λ table. table ≡ distances_of clip.now) }
    ensures each { IfOk result (AreDistancesOf clip.now) }
{
    let size = clip.size();
    let n = size.f as usize;
    let len = clip.samples() as usize * (size.w as usize * size.h as usize);
    let bytes = clip.bytes();
    let numbers = all_distances(alloc, bytes, len, n)?;
    Ok(Table {
        frames: size.f,
        numbers,
    })
}

// What files are read by, and what they are read as: their numbers, or a refusal.
use crate::files::{File, bytes_of, shelf_with};
use crate::numbers::{add_clip, add_map, add_record, add_volume};
use cert_file::read_record_file;
use netpbm_p6::read_p6;
use shelf_core::{MemShelf, ReadError};
use source_map::read_map;
use std::alloc::{AllocError, Global};
use y4m_clip::read_clip;

/// What a file is read by. Of clips at most 8 cells are read.
#[derive(Drop)]
pub enum Reader {
    OfPictures,
    OfClips,
    OfMaps,
    OfRecords,
}

// Adds the numbers of the file in a store.
fn read_into(
    alloc: Global,
    reader: &Reader,
    shelf: &mut MemShelf,
    numbers: &mut Vec<i128>,
) -> Result<(), ReadError> {
    let added = match reader {
        Reader::OfPictures => {
            let picture = read_p6(alloc, shelf, "file")?;
            add_volume(&[i128::from(picture.maxval)], &picture.volume, numbers)
        }
        Reader::OfClips => {
            let clip = read_clip(alloc, shelf, "file", 8)?;
            add_clip(&clip, numbers)
        }
        Reader::OfMaps => {
            let file = read_map(alloc, shelf, "file")?;
            add_map(&file, numbers)
        }
        Reader::OfRecords => {
            let file = read_record_file(alloc, shelf, "file")?;
            add_record(&file, numbers)
        }
    };
    Ok(added?)
}

/// Adds the numbers of a file, or gives its refusal.
pub fn read_as(
    alloc: Global,
    reader: &Reader,
    file: &File,
    numbers: &mut Vec<i128>,
) -> Result<Option<ReadError>, AllocError> {
    let bytes = bytes_of(alloc, file)?;
    let mut shelf = shelf_with(alloc, &bytes)?;
    Ok(read_into(alloc, reader, &mut shelf, numbers).err())
}

/// Why a file is refused, if it is.
pub fn refusal(
    alloc: Global,
    reader: &Reader,
    file: &File,
) -> Result<Option<ReadError>, AllocError> {
    let mut numbers = Vec::new(alloc);
    read_as(alloc, reader, file, &mut numbers)
}

/// Whether a file is read and has these numbers.
pub fn has_numbers(
    alloc: Global,
    reader: &Reader,
    bytes: &[u8],
    want: &[i128],
) -> Result<bool, AllocError> {
    let mut numbers = Vec::new(alloc);
    let refused = read_as(alloc, reader, &File::Whole(bytes), &mut numbers)?;
    Ok(refused.is_none() && numbers.as_slice() == want)
}

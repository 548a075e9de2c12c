// Files in memory, and stores with one file. A function that owns a store and may end at several
// places is several times as long to prove as one that lends it.
use shelf_core::MemShelf;
use std::alloc::{AllocError, Global};

/// The bytes of a file.
#[derive(Drop)]
pub enum File<'a> {
    /// These bytes.
    Whole(&'a [u8]),
    /// These bytes, with others from a place on.
    Changed(&'a [u8], usize, &'a [u8]),
    /// These bytes, then so many times one byte, and an end.
    Long(&'a [u8], usize, u8, &'a [u8]),
}

fn changed(alloc: Global, bytes: &[u8], at: usize, new: &[u8]) -> Result<Vec<u8>, AllocError> {
    let mut result = Vec::from_slice(alloc, bytes)?;
    for (old, byte) in result.iter_mut().skip(at).zip(new) {
        *old = *byte;
    }
    Ok(result)
}

// Adds so many times one byte to a file, and an end.
fn add_rest(count: usize, byte: u8, end: &[u8], bytes: &mut Vec<u8>) -> Result<(), AllocError> {
    for _ in 0..count {
        bytes.push(byte)?;
    }
    bytes.extend_from_slice(end)
}

fn long(
    alloc: Global,
    start: &[u8],
    count: usize,
    byte: u8,
    end: &[u8],
) -> Result<Vec<u8>, AllocError> {
    let mut bytes = Vec::from_slice(alloc, start)?;
    add_rest(count, byte, end, &mut bytes)?;
    Ok(bytes)
}

/// The bytes of a file.
pub fn bytes_of(alloc: Global, file: &File) -> Result<Vec<u8>, AllocError> {
    match file {
        File::Whole(bytes) => Vec::from_slice(alloc, *bytes),
        File::Changed(bytes, at, new) => changed(alloc, *bytes, *at, *new),
        File::Long(start, count, byte, end) => long(alloc, *start, *count, *byte, *end),
    }
}

/// A store with one file, `file`.
pub fn shelf_with(alloc: Global, bytes: &[u8]) -> Result<MemShelf, AllocError> {
    let mut shelf = MemShelf::new(alloc);
    shelf.put_file("file", bytes)?;
    Ok(shelf)
}

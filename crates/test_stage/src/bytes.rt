// Files with a long stretch of one byte.
use crate::refusals::refused;
use std::alloc::{AllocError, Global};

/// A file of some first bytes, one byte so many times, and some last bytes.
pub fn filled(
    alloc: Global,
    first: &[u8],
    byte: u8,
    count: usize,
    last: &[u8],
) -> Result<Vec<u8>, AllocError> {
    let mut bytes = Vec::from_slice(alloc, first)?;
    bytes.resize(bytes.len().saturating_add(count), byte)?;
    bytes.extend_from_slice(last)?;
    Ok(bytes)
}

/// The first bytes of a sample, how often a byte follows, and the last bytes; the status and the line.
pub type Long<'a> = (&'a [u8], usize, &'a [u8], u8, &'a str);

fn is_refused(alloc: Global, words: &str, byte: u8, of: &Long) -> Result<bool, AllocError> {
    let (first, count, last, status, line) = *of;
    let sample = filled(alloc, first, byte, count, last)?;
    refused(alloc, words, &sample, status, line)
}

/// The number of the first such sample, from 0, that isn't refused with its status and its line.
pub fn wrong_long(
    alloc: Global,
    words: &str,
    byte: u8,
    table: &[Long],
) -> Result<Option<usize>, AllocError> {
    for (i, of) in table.iter().enumerate() {
        if !is_refused(alloc, words, byte, of)? {
            return Ok(Some(i));
        }
    }
    Ok(None)
}

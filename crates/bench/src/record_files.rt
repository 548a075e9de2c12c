// Record files, both ways, and the copy of their bytes. The files lie in memory.
ghost use Rattle.cert_file.specs.RecordFiles.{IsRecordFile};

use crate::samples::mixed;
use cert_file::{RecordFile, read_record_file, write_blocks, write_cuts};
use shelf_core::SureShelf;
use std::alloc::{AllocError, Global};

/// What is done with a file.
#[derive(Drop)]
pub enum Way {
    Read,
    Write,
    Copy,
}

// Adds numbers of 2 bytes.
fn add_all(numbers: &[u16], bytes: &mut Vec<u8>) -> Result<(), AllocError> {
    for number in numbers {
        bytes.extend_from_slice(&number.to_be_bytes())?;
    }
    Ok(())
}

// Adds so many bytes that look drawn.
fn add_drawn(count: u32, bytes: &mut Vec<u8>) -> Result<(), AllocError> {
    for i in 0..count {
        bytes.push((mixed(i, 11) >> 24) as u8)?;
    }
    Ok(())
}

// Adds the head of a file over a sample of 128x128 cells, and how many records it has.
fn add_head(form: &[u8], count: u16, bytes: &mut Vec<u8>) -> Result<(), AllocError> {
    bytes.extend_from_slice(form)?;
    add_all(
        &[0, 1024, 0, 1024, 0, 1, 0, 128, 0, 128, 0, 1, 0, count],
        bytes,
    )
}

// Adds the records of so many placements of 32x32 cells, of 8,082 bytes each.
fn add_cuts(count: u16, bytes: &mut Vec<u8>) -> Result<(), AllocError> {
    add_head(b"WEAVEREC\x01\x00", count, bytes)?;
    for i in 0..count {
        let row = i / 32 % 32 * 24;
        add_all(&[i % 32 * 24, row, 0, 32, 32, 1, 7, 9, 0], bytes)?;
        add_drawn(128 + 4 * 1984, bytes)?;
    }
    Ok(())
}

// Adds the record of a block of 1024x1024 cells, whose left strip has so many columns.
fn add_strip(columns: u16, bytes: &mut Vec<u8>) -> Result<(), AllocError> {
    add_head(b"WEAVEREC\x01\x01", 1, bytes)?;
    add_all(&[1, 0, 1024, 1024, 0, 0], bytes)?;
    let [high, low] = columns.to_be_bytes();
    bytes.extend_from_slice(&[1, high, low])?;
    add_drawn(2 * 1024 + 4 * 1024 * u32::from(columns), bytes)
}

// Reads once, and counts the records.
fn read_once(alloc: Global, shelf: &mut SureShelf) -> Result<u64, AllocError> {
    match read_record_file(alloc, shelf, "record") {
        Ok(RecordFile::Cuts { cuts, .. }) => Ok(cuts.as_slice().len() as u64),
        Ok(RecordFile::Blocks { blocks, .. }) => Ok(blocks.as_slice().len() as u64),
        _ => Err(AllocError),
    }
}

// Reads so often. The number counts the records.
fn read_often(alloc: Global, shelf: &mut SureShelf, times: u32) -> Result<u64, AllocError> {
    let mut number = 0u64;
    for _time in 0..times {
        number = number.wrapping_add(read_once(alloc, shelf)?);
    }
    Ok(number)
}

// Writes a record file of cuts or of blocks so often.
fn write_all(file: &RecordFile, shelf: &mut SureShelf, times: u32) -> Result<(), AllocError>
    requires { IsRecordFile file.now }
{
    for _time in 0..times {
        let is_written = match file {
            RecordFile::Cuts { head, cuts } => {
                write_cuts(head, cuts.as_slice(), shelf, "out").is_ok()
            }
            RecordFile::Blocks { head, blocks } => {
                write_blocks(head, blocks.as_slice(), shelf, "out").is_ok()
            }
            RecordFile::Walk { .. } => false,
        };
        if !is_written {
            return Err(AllocError);
        }
    }
    Ok(())
}

// Reads once, and writes so often. The number is of the bytes written.
fn write_often(alloc: Global, shelf: &mut SureShelf, times: u32) -> Result<u64, AllocError> {
    let Ok(file) = read_record_file(alloc, shelf, "record") else {
        return Err(AllocError);
    };
    let written = write_all(&file, shelf, times);
    drop(file);
    written?;
    match shelf.file("out") {
        Some(bytes) => Ok(bytes.len() as u64),
        None => Ok(0),
    }
}

// Copies the bytes so often. The number is of some that were copied.
fn copy_often(alloc: Global, bytes: &[u8], times: u32) -> Result<u64, AllocError> {
    let mut copied = Vec::from_slice(alloc, bytes)?;
    let mut number = 0u64;
    for time in 0..times {
        copied.copy_from_slice(bytes);
        let at = time as usize % copied.len().max(1);
        number = number.wrapping_add(u64::from(*copied.get(at).unwrap_or(&0)));
    }
    Ok(number)
}

// Reads, writes or copies a record file so often.
fn move_records(alloc: Global, bytes: &[u8], way: &Way, times: u32) -> Result<u64, AllocError> {
    let room = bytes.len().saturating_mul(2).saturating_add(64);
    let mut shelf = SureShelf::make(alloc, room)?;
    shelf.put_file("record", bytes);
    let number = match way {
        Way::Read => read_often(alloc, &mut shelf, times),
        Way::Write => write_often(alloc, &mut shelf, times),
        Way::Copy => copy_often(alloc, bytes, times),
    };
    drop(shelf);
    number
}

/// Moves the record file of so many placements so often.
pub fn move_cuts(alloc: Global, count: u16, way: &Way, times: u32) -> Result<u64, AllocError> {
    let mut bytes = Vec::new(alloc);
    add_cuts(count, &mut bytes)?;
    move_records(alloc, &bytes, way, times)
}

/// Moves the record file of a block whose left strip has so many columns so often.
pub fn move_strip(alloc: Global, columns: u16, way: &Way, times: u32) -> Result<u64, AllocError> {
    let mut bytes = Vec::new(alloc);
    add_strip(columns, &mut bytes)?;
    move_records(alloc, &bytes, way, times)
}

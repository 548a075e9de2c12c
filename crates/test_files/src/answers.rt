// What files are answered: refusals with their places, files that are cut off or go on, and the
// numbers of files that are read.
use crate::expect::expect_none;
use crate::files::File;
use crate::readers::Reader::{OfClips, OfMaps, OfPictures, OfRecords};
use crate::readers::{Reader, has_numbers, refusal};
use crate::{clips, map_files, pictures, records};
use shelf_core::FormFault::{Form, NoFrames, Trailing};
use shelf_core::ReadError::Bad;
use shelf_core::{FormFault, ReadError};
use std::alloc::{AllocError, Global};

/// A file, and why it is refused, or that it is read.
pub type Answered<'a> = (File<'a>, Option<ReadError>);

// The number of the first file, from 0, that has another answer.
fn wrong_answer(
    alloc: Global,
    reader: &Reader,
    table: &[Answered],
) -> Result<Option<usize>, AllocError> {
    for (i, (file, want)) in table.iter().enumerate() {
        if refusal(alloc, reader, file)? != *want {
            return Ok(Some(i));
        }
    }
    Ok(None)
}

#[test]
fn answers(rt: HostRuntime) {
    let alloc = rt.alloc();
    expect_none(&rt, wrong_answer(alloc, &OfPictures, pictures::ANSWERS));
    expect_none(&rt, wrong_answer(alloc, &OfClips, clips::ANSWERS));
    expect_none(&rt, wrong_answer(alloc, &OfMaps, map_files::CHANGES));
    expect_none(&rt, wrong_answer(alloc, &OfRecords, records::CHANGES));
}

// Files that are read, and one length at which the refusal isn't that of the place.
const WHOLE: &[(Reader, &[u8], usize, FormFault)] = &[
    // A picture that goes on.
    (OfPictures, pictures::FOUR_BY_ONE, 23, Trailing(23)),
    // The stream line of a clip alone.
    (OfClips, clips::TWO_CELLS, 54, NoFrames),
    (OfMaps, &map_files::COPIES, 0, Form(0)),
    (OfMaps, &map_files::PLAIN, 0, Form(0)),
    (OfMaps, &map_files::NUMBERED, 0, Form(0)),
    (OfMaps, &map_files::FRAMES, 0, Form(0)),
    (OfRecords, records::TWO, 0, Form(0)),
    (OfRecords, records::THREE, 0, Form(0)),
    (OfRecords, records::NUMBERED, 0, Form(0)),
    (OfRecords, records::WALK, 0, Form(0)),
    (OfRecords, records::BLOCKS, 0, Form(0)),
];

// How many bytes of a file are the first that aren't refused at their end, or with a byte more at
// its place.
fn wrong_length(
    alloc: Global,
    reader: &Reader,
    bytes: &[u8],
    other: usize,
    fault: FormFault,
) -> Result<Option<usize>, AllocError> {
    for n in 0..=bytes.len() {
        let file = File::Long(&bytes[..n], usize::from(n == bytes.len()), b'x', b"");
        let want = if n == other { fault } else { Form(n as u64) };
        if refusal(alloc, reader, &file)? != Some(Bad(want)) {
            return Ok(Some(n));
        }
    }
    Ok(None)
}

// The number of the first file, from 0, that isn't refused at one of its lengths.
fn wrong_lengths(alloc: Global) -> Result<Option<usize>, AllocError> {
    for (i, (reader, bytes, other, fault)) in WHOLE.iter().enumerate() {
        if wrong_length(alloc, reader, *bytes, *other, *fault)?.is_some() {
            return Ok(Some(i));
        }
    }
    Ok(None)
}

// Files of each kind that are cut off at each byte, or go on.
#[test]
fn cut_and_longer(rt: HostRuntime) {
    expect_none(&rt, wrong_lengths(rt.alloc()));
}

// Files, and what is in them.
const NUMBERS: &[(Reader, &[u8], &[i128])] = &[
    (
        OfPictures,
        pictures::FOUR_WITH_COMMENT,
        pictures::FOUR_NUMBERS,
    ),
    (OfClips, clips::TWO_CELLS, clips::TWO_NUMBERS),
    (OfRecords, records::ONE, records::ONE_NUMBERS),
    (OfRecords, records::WALK, records::WALK_NUMBERS),
    (OfRecords, records::BLOCKS, records::BLOCKS_NUMBERS),
];

// The number of the first file, from 0, that has other numbers.
fn wrong_numbers(alloc: Global) -> Result<Option<usize>, AllocError> {
    for (i, (reader, bytes, numbers)) in NUMBERS.iter().enumerate() {
        if !has_numbers(alloc, reader, *bytes, *numbers)? {
            return Ok(Some(i));
        }
    }
    Ok(None)
}

#[test]
fn fields(rt: HostRuntime) {
    expect_none(&rt, wrong_numbers(rt.alloc()));
}

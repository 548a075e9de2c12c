// The rows of a table, and whether the readers answer as they say.
use crate::files::File;
use crate::readers::{Reader, has_numbers, read_as};
use shelf_core::{FormFault, ReadError, What};
use std::alloc::{AllocError, Global};

/// A refusal, with its place or the number that passes a limit; or the number of a file that is
/// read, by its index.
#[derive(Clone, Copy, Drop)]
pub enum Answer {
    Form,
    Axis,
    Records,
    Frames,
    Loop,
    Number(usize),
}

/// First and last place, first and last value, the answer, its number at the first value, and how
/// many bits the step has after it by which a number grows from one value to the next; the place
/// of a refusal doesn't. The value that is at a place is left out.
pub type Row = (usize, usize, u8, u8, Answer, i128, u32);

/// A file, what it is read by, its numbers, and the rows of its table.
#[derive(Drop)]
pub struct Table<'a> {
    pub reader: Reader,
    pub file: &'a [u8],
    pub numbers: &'a [i128],
    pub rows: &'a [Row],
}

// The refusal of an answer and its number.
fn refusal_of(answer: Answer, number: i128) -> Option<ReadError> {
    let Ok(number) = u64::try_from(number) else {
        return None;
    };
    let (what, bound) = match answer {
        Answer::Form => return Some(ReadError::Bad(FormFault::Form(number))),
        Answer::Axis => (What::Axis, 4096),
        Answer::Records => (What::Records, 33554432),
        Answer::Frames => (What::Frames, 256),
        Answer::Loop => (What::Loop, 4096),
        Answer::Number(_) => return None,
    };
    Some(ReadError::Limit {
        what,
        number,
        bound,
    })
}

// Whether numbers are the others but for the one with this index.
fn are_but(list: &[i128], others: &[i128], index: usize, number: i128) -> bool {
    for (i, (one, other)) in list.iter().zip(others.iter()).enumerate() {
        if *one != if i == index { number } else { *other } {
            return false;
        }
    }
    list.len() == others.len() && index < list.len()
}

fn is_answer(
    refused: Option<ReadError>,
    list: &[i128],
    numbers: &[i128],
    answer: Answer,
    number: i128,
) -> bool {
    match answer {
        Answer::Number(index) => refused.is_none() && are_but(list, numbers, index, number),
        _ => refused.is_some() && refused == refusal_of(answer, number),
    }
}

// Whether a file with another value of one byte is read so.
fn is_read_so(
    alloc: Global,
    of: &Table,
    place: usize,
    value: u8,
    answer: Answer,
    number: i128,
) -> Result<bool, AllocError> {
    let mut numbers = Vec::new(alloc);
    let file = File::Changed(of.file, place, &[value]);
    let refused = read_as(alloc, &of.reader, &file, &mut numbers)?;
    Ok(is_answer(refused, &numbers, of.numbers, answer, number))
}

// Tries the values of a row, and counts them. Where a file isn't read as the row says, it gives
// 256 times the place, plus the value.
fn try_row(
    alloc: Global,
    of: &Table,
    row: &Row,
    count: &mut usize,
) -> Result<Option<usize>, AllocError> {
    let (from, to, first, last, answer, start, shift) = *row;
    let step = match answer {
        Answer::Form => 0,
        _ => 1i128.wrapping_shl(shift),
    };
    for n in from.wrapping_mul(256)..to.wrapping_add(1).wrapping_mul(256) {
        let (place, value) = (n / 256, (n % 256) as u8);
        if (first <= value) & (value <= last) & (of.file.get(place) != Some(&value)) {
            let more = step.wrapping_mul(i128::from(value) - i128::from(first));
            if !is_read_so(alloc, of, place, value, answer, start.wrapping_add(more))? {
                return Ok(Some(n));
            }
            *count = count.wrapping_add(1);
        }
    }
    Ok(None)
}

// Whether each row comes after the one before it, so that no place and value are in two.
fn are_in_order(rows: &[Row]) -> bool {
    let mut before: Option<(usize, u8)> = None;
    for (from, to, first, last, ..) in rows {
        if *from > *to || *first > *last || before >= Some((*from, *first)) {
            return false;
        }
        before = Some((*to, *last));
    }
    true
}

/// Whether a file has its numbers, and each other value of each of its bytes is in one row of its
/// table and is read as that says. Where not, it gives a number as `try_row` does.
pub fn wrong_value(alloc: Global, of: &Table) -> Result<Option<usize>, AllocError> {
    if !has_numbers(alloc, &of.reader, of.file, of.numbers)? || !are_in_order(of.rows) {
        return Ok(Some(0));
    }
    let mut count = 0usize;
    for row in of.rows {
        let found = try_row(alloc, of, row, &mut count)?;
        if found.is_some() {
            return Ok(found);
        }
    }
    let are_all = count == of.file.len().wrapping_mul(255);
    Ok(if are_all { None } else { Some(count) })
}

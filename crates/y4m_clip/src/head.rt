// What a stream line says of its frames, and its limits.
ghost use Rattle.std.specs.Prelude.{◌≡◌, ◌≢◌, ◌<◌, ◌*◌, ◌+◌, ◌%◌, ◌/◌, ◌⊎◌, length, IfOk, IfSome, IfNone, IsTrue, ◌↔◌, option_copied, codes};
ghost use Rattle.y4m_clip.specs.declared.form.SpaceKind.{SpaceKind};
ghost use Rattle.y4m_clip.specs.Spaces.{IsSpelling, cell_width, cell_height, samples_of};
ghost use Rattle.shelf_traits.specs.Decimals.{capped, value_behind};
ghost use Rattle.y4m_clip.specs.Clips.{tag_value, tag_number, carried, spaced, HasSpaceKind};
ghost use Rattle.y4m_clip.specs.Heads.{IsCounted, IsCellNumber, IsAllowedSize, FrontAs};

use crate::form::{ClipForm, SpaceKind, Tags};
use crate::line::Line;
use items::Items;
use limits::{GREATEST_AXIS, MOST_LINE_BYTES, MOST_TAG_BYTES};
use shelf_traits::{FormFault, ReadError, What};
use std::alloc::{AllocError, Global};

impl SpaceKind {
    /// A cell's width in pixels.
    pub fn cell_width(self) -> u32
        ensures { result ≡ cell_width self }
    {
        match self {
            SpaceKind::Mono | SpaceKind::C444 => 1,
            SpaceKind::C422 | SpaceKind::C420 => 2,
            SpaceKind::C411 => 4,
        }
    }

    /// A cell's height in pixels.
    pub fn cell_height(self) -> u32
        ensures { result ≡ cell_height self }
    {
        match self {
            SpaceKind::C420 => 2,
            _ => 1,
        }
    }

    /// The samples of a cell.
    pub fn samples(self) -> u32
        ensures { result ≡ samples_of self }
    {
        match self {
            SpaceKind::Mono => 1,
            SpaceKind::C444 => 3,
            SpaceKind::C422 => 4,
            SpaceKind::C411 | SpaceKind::C420 => 6,
        }
    }
}

/// The value of the first tag with this letter.
fn value_of(tags: &[Items<u8>], letter: u8) -> Option<&[u8]>
    ensures { option_copied result ≡ tag_value letter tags.now }
{
    for tag in tags {
        let tag = tag.as_slice();
        if !tag.is_empty() && tag[0] == letter {
            return Some(&tag[1..]);
        }
    }
    None
}

/// A number of any length: its value as far as a u64 goes, and what is left of it after division by 4.
#[derive(Clone, Copy)]
pub struct Count {
    pub number: u64,
    pub left: u8,
}

fn count_of(digits: &[u8]) -> Count
    ensures { IsCounted (value_behind 0 digits.now) result }
{
    let mut number = 0u64;
    let mut left = 0u8;
    for digit in digits {
        let digit = digit.saturating_sub(b'0');
        number = number.saturating_mul(10).saturating_add(u64::from(digit));
        left = ((u32::from(left) * 10 + u32::from(digit)) % 4) as u8;
    }
    Count { number, left }
}

fn is_word(value: &[u8], word: &[u8]) -> bool
    ensures { IsTrue result ↔ (value.now ≡ word.now) }
{
    value == word
}

fn is_420(value: &[u8]) -> bool
    ensures { IsTrue result ↔ IsSpelling SpaceKind.C420 value.now }
{
    is_word(value, b"420jpeg")
        || is_word(value, b"420mpeg2")
        || is_word(value, b"420paldv")
        || is_word(value, b"420")
}

// The kind with this spelling.
fn spelled(value: &[u8]) -> Option<SpaceKind>
    ensures some { IfSome result (λ kind. IsSpelling kind value.now) }
    ensures none { IfNone result ((kind : SpaceKind) → IsSpelling kind value.now → ⊥) }
{
    if is_420(value) {
        return Some(SpaceKind::C420);
    }
    if is_word(value, b"422") {
        return Some(SpaceKind::C422);
    }
    if is_word(value, b"444") {
        return Some(SpaceKind::C444);
    }
    if is_word(value, b"411") {
        return Some(SpaceKind::C411);
    }
    if is_word(value, b"mono") {
        return Some(SpaceKind::Mono);
    }
    None
}

// The interlacing is read.
fn is_read(value: &[u8]) -> bool
    ensures { IsTrue result ↔ ((value.now ≡ codes "p") ⊎ (value.now ≡ codes "t")
        ⊎ (value.now ≡ codes "b") ⊎ (value.now ≡ codes "?")) }
{
    is_word(value, b"p") || is_word(value, b"t") || is_word(value, b"b") || is_word(value, b"?")
}

// The colour kind, where the interlacing is read too.
fn kind_of(tags: &[Items<u8>]) -> Option<SpaceKind>
    ensures some { IfSome result (HasSpaceKind tags.now) }
    ensures none { IfNone result ((kind : SpaceKind) → HasSpaceKind tags.now kind → ⊥) }
{
    if let Some(interlace) = value_of(tags, b'I') {
        if !is_read(interlace) {
            return None;
        }
    }
    match value_of(tags, b'C') {
        None => Some(SpaceKind::C420),
        Some(space) => spelled(space),
    }
}

// The cells on an axis, as far as a u64 of pixels goes, where they are whole.
fn cells_on(tags: &[Items<u8>], letter: u8, cell: u32) -> Option<u64>
    requires { (cell ≡ 1) ⊎ (cell ≡ 2) ⊎ (cell ≡ 4) }
    ensures some { IfSome result (IsCellNumber (tag_number letter tags.now) cell) }
    ensures none { IfNone result (tag_number letter tags.now % cell ≢ 0) }
{
    let count = count_of(value_of(tags, letter).unwrap_or(b""));
    if u32::from(count.left) % cell != 0 {
        return None;
    }
    Some(count.number / u64::from(cell))
}

fn axis_passed(number: u64) -> ReadError
    ensures { result ≡ ReadError.Limit What.Axis number GREATEST_AXIS }
{
    ReadError::Limit {
        what: What::Axis,
        number,
        bound: u64::from(GREATEST_AXIS),
    }
}

// Width and height within the limits.
fn allowed(w: u64, h: u64, most: u64) -> Result<(u32, u32), ReadError>
    ensures { IsAllowedSize w h most result }
{
    if w > u64::from(GREATEST_AXIS) {
        return Err(axis_passed(w));
    }
    if h > u64::from(GREATEST_AXIS) {
        return Err(axis_passed(h));
    }
    let number = w * h;
    if number > most {
        return Err(ReadError::Limit {
            what: What::Cells,
            number,
            bound: most,
        });
    }
    Ok((w as u32, h as u32))
}

// All tags but W and H.
fn carry(alloc: Global, tags: &[Items<u8>]) -> Result<Vec<Items<u8>>, AllocError>
    ensures { IfOk result (λ list. list.items ≡ carried tags.now) }
{
    let mut list = Vec::new(alloc);
    for tag in tags {
        let tag = tag.as_slice();
        if !tag.is_empty() && tag[0] != b'W' && tag[0] != b'H' {
            let copy = Vec::from_slice(alloc, tag)?;
            list.push(Items::from_vec(copy))?;
        }
    }
    Ok(list)
}

// The bytes of tags with one blank before each.
fn spaced_length(tags: &[Items<u8>]) -> u64
    ensures { result ≡ capped (length (spaced tags.now)) }
{
    let mut total = 0u64;
    for tag in tags {
        total = total
            .saturating_add(1)
            .saturating_add(tag.as_slice().len() as u64);
    }
    total
}

/// The front of a clip: its form, the cells of a frame on each axis, and where the frames begin.
#[derive(Drop)]
pub struct Front {
    pub form: ClipForm,
    pub w: u32,
    pub h: u32,
    pub start: u64,
}

/// What the tags of a stream line say, within the limits: the colour kind and interlacing are tried
/// first, then whole cells, the carried tags, the width, the height and the cells of a frame.
pub fn front_of(alloc: Global, line: &Line, most: u64) -> Result<Front, ReadError>
    ensures { FrontAs line.now most result }
{
    let tags = line.tags.as_slice();
    let Some(space) = kind_of(tags) else {
        return Err(ReadError::Bad(FormFault::Space));
    };
    let Some(w) = cells_on(tags, b'W', space.cell_width()) else {
        return Err(ReadError::Bad(FormFault::Cell));
    };
    let Some(h) = cells_on(tags, b'H', space.cell_height()) else {
        return Err(ReadError::Bad(FormFault::Cell));
    };
    let list = carry(alloc, tags)?;
    let number = spaced_length(&list);
    if number > MOST_TAG_BYTES {
        return Err(ReadError::Limit {
            what: What::Header,
            number,
            bound: MOST_TAG_BYTES,
        });
    }
    let (w, h) = allowed(w, h, most)?;
    Ok(Front {
        form: ClipForm {
            space,
            tags: Items::from_vec(list),
        },
        w,
        h,
        start: line.length,
    })
}

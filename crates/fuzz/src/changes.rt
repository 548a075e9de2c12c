// Bytes of files that are changed: turned, cut, joined, and fields overwritten.
use crate::dice::Dice;
use crate::files::{File, NAMES};
use crate::pool::World;
use std::alloc::AllocError;

const BITS: [u8; 8] = [1, 2, 4, 8, 16, 32, 64, 128];

// Bytes that mean something in some form.
const BYTES: [u8; 14] = [
    0, 1, 2, 3, 9, 127, 255, b' ', b'\n', b'0', b'9', b'F', b'W', b'#',
];

// Numbers at the bounds of fields.
const NUMBERS: [u32; 14] = [
    0,
    1,
    2,
    3,
    16,
    255,
    256,
    4_096,
    4_097,
    32_767,
    65_535,
    1_048_577,
    2_147_483_647,
    4_294_967_295,
];

// The first byte of a field of 4 bytes that is written: fields have 4, 2 or 1 of them.
const STARTS: [usize; 3] = [0, 2, 3];

// Turns a bit of a byte, or puts another byte in its place.
fn change_byte(bytes: &mut Vec<u8>, dice: &mut Dice, is_bit: bool) {
    let drawn = if is_bit {
        dice.byte(&BITS)
    } else {
        dice.byte(&BYTES)
    };
    if let Some(byte) = bytes.get_mut(dice.below(bytes.len())) {
        *byte = if is_bit { *byte ^ drawn } else { drawn };
    }
}

// Puts a number in the place of some bytes, as a field of 4, 2 or 1.
fn put_field(bytes: &mut [u8], dice: &mut Dice) {
    let number = NUMBERS.get(dice.below(NUMBERS.len())).copied().unwrap_or(0);
    let start = STARTS.get(dice.below(STARTS.len())).copied().unwrap_or(0);
    let number = number.to_be_bytes();
    let field = number.get(start..).unwrap_or(b"");
    if let Some(place) = bytes.get_mut(dice.below(bytes.len())..) {
        let n = place.len().min(field.len());
        place[..n].copy_from_slice(&field[..n]);
    }
}

// Puts another file in the place of the bytes, cuts them off, or joins its last bytes to the first
// of them.
fn put_other(
    bytes: &mut Vec<u8>,
    other: &[u8],
    way: usize,
    dice: &mut Dice,
) -> Result<(), AllocError> {
    if way == 8 {
        bytes.clear();
        return bytes.extend_from_slice(other);
    }
    bytes.truncate(dice.below(bytes.len().saturating_add(1)));
    if way == 6 {
        return Ok(());
    }
    let rest = other.get(dice.below(other.len())..).unwrap_or(b"");
    bytes.extend_from_slice(rest)
}

fn change(bytes: &mut Vec<u8>, other: &[u8], dice: &mut Dice) -> Result<(), AllocError> {
    let way = dice.below(9);
    if way >= 6 {
        return put_other(bytes, other, way, dice);
    }
    if way >= 4 {
        put_field(bytes, dice);
    } else {
        change_byte(bytes, dice, way < 2);
    }
    Ok(())
}

// A file of some run.
fn some_file<'a>(worlds: &'a [World], dice: &mut Dice) -> &'a [u8] {
    let Some(world) = worlds.get(dice.below(worlds.len())) else {
        return b"";
    };
    let name = NAMES.get(dice.below(world.count)).copied().unwrap_or("");
    world.stage.file(name).unwrap_or(b"")
}

/// Leaves out the last of the files in one of sixteen cases, and changes one to three of them, or
/// one of them so often, in two of three.
pub fn change_files(
    files: &mut Vec<File>,
    worlds: &[World],
    dice: &mut Dice,
) -> Result<(), AllocError> {
    if dice.below(16) == 0 {
        files.truncate(dice.below(files.len()));
    }
    if dice.below(3) == 0 {
        return Ok(());
    }
    let times = dice.below(3).saturating_add(1);
    for _ in 0..times {
        let other = some_file(worlds, dice);
        let i = dice.below(files.len());
        if let Some(file) = files.get_mut(i) {
            change(&mut file.bytes, other, dice)?;
        }
    }
    Ok(())
}

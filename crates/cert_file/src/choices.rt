// Choices, as they are read.
ghost use Rattle.std.specs.Prelude.{◌≡◌, ◌≤◌, ◌<◌, ◌+◌, ◌*◌, ◌^◌, ◌++◌, List, ℕ, IfOk, IfErr, OnOk, length};
ghost use Rattle.shelf_traits.specs.Files.{OnlyReadsFile};
ghost use Rattle.file_bytes.specs.Reading.{Follows};
ghost use Rattle.source_map.specs.Readings.{IsRefusal, ReadsFrom};
ghost use Rattle.cert_file.specs.CutForms.{choice_bytes};
ghost use Rattle.cert_file.specs.CutReading.{bits_of, byte_bits, choice_read, choice_rule, none_set};

use file_bytes::{FileReader, make_room};
use items::Items;
use shelf_traits::{FormFault, ReadError, Shelf};
use std::alloc::{AllocError, Global};

// Puts the bits of a byte, from the highest on, after others, of which so many are missing.
fn push_bits(bits: &mut Vec<bool>, byte: u8, missing: usize) -> Result<(), AllocError>
    ensures { OnOk result (bits.new.items ≡ bits.old.items ++ byte_bits byte) }
{
    let more = [
        byte / 128 % 2 == 1,
        byte / 64 % 2 == 1,
        byte / 32 % 2 == 1,
        byte / 16 % 2 == 1,
        byte / 8 % 2 == 1,
        byte / 4 % 2 == 1,
        byte / 2 % 2 == 1,
        byte % 2 == 1,
    ];
    if bits.capacity() - bits.len() >= more.len() {
        return bits.extend_from_slice(&more);
    }
    for bit in &more {
        make_room(bits, missing)?;
        bits.push(*bit)?;
    }
    Ok(())
}

// Whether no bit is set.
fn none_set(bits: &[bool]) -> bool
    ensures { result ≡ none_set bits.now }
{
    match bits.split_first() {
        None => true,
        Some((bit, rest)) => !*bit && none_set(rest),
    }
}

// The choice for so many cells, if no unused bit is set.
fn lawful_choice(mut bits: Vec<bool>, cells: usize, at: u64) -> Result<Items<bool>, ReadError>
    requires { cells ≤ length bits.items }
    ensures choice { (piece : List ℕ) → bits.items ≡ bits_of piece →
        result ≡ choice_rule cells at piece }
    ensures count { IfOk result (λ choice. length choice ≡ cells) }
    ensures refusal { IfErr result IsRefusal }
{
    if !none_set(&bits[cells..]) {
        return Err(ReadError::Bad(FormFault::Form(at)));
    }
    bits.truncate(cells);
    Ok(Items::from_vec(bits))
}

// Reads a choice for so many cells.
pub(crate) fn read_choice<S: Shelf>(
    alloc: Global,
    file: &mut FileReader,
    cells: usize,
    shelf: &mut S,
    name: &str,
) -> Result<Items<bool>, ReadError>
    requires follows { Follows name.now (S.state shelf.old) file.old }
    requires room { file.old.at < 2 ^ 62 }
    requires few { cells < 2 ^ 32 }
    ensures answer { ReadsFrom (Unit {0}) name.now file.old.at (S.state shelf.old)
        (S.state shelf.new) file.new (choice_read cells) result }
    ensures count { IfOk result (λ choice. length choice ≡ cells) }
    ensures place { OnOk result (file.new.at ≡ file.old.at + choice_bytes cells) }
    ensures reads { OnlyReadsFile name.now (S.state shelf.old) (S.state shelf.new) }
{
    let at = file.place();
    let count = cells.div_ceil(8);
    let mut bits = Vec::new(alloc);
    for j in 0..count {
        let byte = file.u8(shelf, name)?;
        push_bits(&mut bits, byte, 8 * (count - j))?;
    }
    lawful_choice(bits, cells, at)
}

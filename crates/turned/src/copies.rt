// The turns of each part of a volume, as parts of one volume.
ghost use Rattle.std.specs.Prelude.{◌≡◌, ◌≤◌, ◌<◌, ◌⊎◌, ◌+◌, ◌*◌, ◌-◌, ◌++◌, [], IfOk, OnOk, length, map};
ghost use Rattle.std.specs.List.{concat};
ghost use Rattle.cells.specs.Places.{IsInside, cell_count, places, spot};
ghost use Rattle.cells.specs.SizeLists.{stock_place};
ghost use Rattle.cells.specs.Cells.{IsOnePart, count_of, sizes_of};
ghost use Rattle.turned.specs.Turns.{turn_from, turn_size};
ghost use Rattle.turned.specs.TurnedParts.{turned, turned_cell, turned_of};
ghost use Rattle.turned.specs.TurnedPlaces.{sample_size};
ghost use Rattle.turned.specs.Copies.{AreSizesOf, IsPartTurn, numbered_part, turned_row, turns_from, with_parts};

use crate::places::MOST_TURNED;
use crate::turn::{TURNS, keeps_rows, turn_from, turned_size};
use cells::{At, Size, Sizes, Volume};
use limits::{GREATEST_AXIS, MOST_CELLS, MOST_PARTS};
use std::alloc::{AllocError, Global};

// A turn of a part of a volume, and the part's size after it.
#[derive(Clone, Copy, Drop)]
pub struct PartTurn {
    pub number: u32,
    pub turn: u32,
    pub size: Size,
}

// The place of three counts.
fn spot_of(x: u32, y: u32, f: u32) -> At
    requires x { x ≤ GREATEST_AXIS }
    requires y { y ≤ GREATEST_AXIS }
    requires f { f ≤ GREATEST_AXIS }
    ensures { result ≡ spot x y f }
{
    At {
        x: x as i32,
        y: y as i32,
        f: f as i32,
    }
}

// The place of the volume from which a turn moves a cell to a place of the turned part.
fn source_of(sizes: &Sizes, number: u32, turn: u32, at: At) -> At
    requires from { 1 ≤ number }
    requires to { number ≤ length sizes.now }
    requires turn { turn < TURNS }
    requires inside { IsInside (turn_size turn (sample_size sizes.now number)) at }
    ensures { result ≡ stock_place sizes.now number
        (turn_from turn (sample_size sizes.now number) at) }
{
    sizes.stock(number, turn_from(turn, sizes.at(number), at))
}

// Puts the cells of a row of a turned part after others, one by one.
fn push_cells(
    bytes: &mut Vec<u8>,
    samples: &Volume,
    sizes: &Sizes,
    it: PartTurn,
    y: u32,
    f: u32,
) -> Result<(), AllocError>
    requires part { IsPartTurn samples.now sizes.now it }
    requires row { y < it.size.h }
    requires frame { f < it.size.f }
    ensures { OnOk result (bytes.new.items ≡ bytes.old.items
        ++ concat (turned_row it.turn (numbered_part samples.now it.number) y f it.size.w)) }
{
    // The samples are taken for their contract only: it shows the prover that these are a volume.
    let _k = samples.samples();
    for x in 0..it.size.w {
        let at = source_of(sizes, it.number, it.turn, spot_of(x, y, f));
        bytes.extend_from_slice(samples.cell(at).unwrap())?;
    }
    Ok(())
}

// Puts a row of a turned part after others: whole where the turn keeps rows, and else cell by cell.
fn push_row(
    bytes: &mut Vec<u8>,
    samples: &Volume,
    sizes: &Sizes,
    it: PartTurn,
    y: u32,
    f: u32,
) -> Result<(), AllocError>
    requires part { IsPartTurn samples.now sizes.now it }
    requires row { y < it.size.h }
    requires frame { f < it.size.f }
    ensures { OnOk result (bytes.new.items ≡ bytes.old.items
        ++ concat (turned_row it.turn (numbered_part samples.now it.number) y f it.size.w)) }
{
    // The samples are taken for their contract only: it shows the prover that these are a volume.
    let _k = samples.samples();
    if keeps_rows(it.turn) {
        let at = source_of(sizes, it.number, it.turn, spot_of(0, y, f));
        bytes.extend_from_slice(samples.row(at, it.size.w))
    } else {
        push_cells(bytes, samples, sizes, it, y, f)
    }
}

// The bytes of a turned part, row after row.
fn turned_bytes(
    alloc: Global,
    samples: &Volume,
    sizes: &Sizes,
    it: PartTurn,
) -> Result<Vec<u8>, AllocError>
    requires { IsPartTurn samples.now sizes.now it }
    ensures { IfOk result (λ bytes. bytes.items
        ≡ concat (map (turned_cell it.turn (numbered_part samples.now it.number))
        (places it.size))) }
{
    let mut bytes = Vec::new(alloc);
    bytes.reserve_exact(samples.samples() as usize * it.size.cells())?;
    for row in 0..it.size.h * it.size.f {
        push_row(
            &mut bytes,
            samples,
            sizes,
            it,
            row % it.size.h,
            row / it.size.h,
        )?;
    }
    Ok(bytes)
}

// A part of a volume after a turn.
fn turned_part(
    alloc: Global,
    samples: &Volume,
    sizes: &Sizes,
    number: u32,
    turn: u32,
) -> Result<Volume, AllocError>
    requires sizes { AreSizesOf samples.now sizes.now }
    requires from { 1 ≤ number }
    requires to { number ≤ length sizes.now }
    requires turn { turn < TURNS }
    ensures turned { IfOk result (λ v. v ≡ turned turn (numbered_part samples.now number)) }
    ensures one { IfOk result IsOnePart }
    ensures samples { IfOk result (λ v. v.k ≡ samples.now.k) }
    ensures size { IfOk result (λ v. v.size ≡ turn_size turn (sample_size sizes.now number)) }
{
    let k = samples.samples();
    let it = PartTurn {
        number,
        turn,
        size: turned_size(turn, sizes.at(number)),
    };
    let bytes = turned_bytes(alloc, samples, sizes, it)?;
    Ok(Volume::from_bytes(it.size, k, bytes))
}

// Puts turns of a part after the parts of a volume, from one turn on.
fn add_turns(
    alloc: Global,
    all: &mut Volume,
    samples: &Volume,
    sizes: &Sizes,
    number: u32,
    first: u32,
) -> Result<(), AllocError>
    requires sizes { AreSizesOf samples.now sizes.now }
    requires from { 1 ≤ number }
    requires to { number ≤ length sizes.now }
    requires first { first < TURNS }
    requires samples { all.old.k ≡ samples.now.k }
    requires few { length (sizes_of all.old) ≤ first + 8 }
    requires room { count_of all.old + (TURNS - first) * cell_count (sample_size sizes.now number)
        ≤ MOST_CELLS }
    ensures parts { OnOk result (all.new ≡ with_parts all.old
        (turns_from (numbered_part samples.now number) first (TURNS - first))) }
    ensures samples { OnOk result (all.new.k ≡ all.old.k) }
    ensures few { OnOk result (length (sizes_of all.new)
        ≡ length (sizes_of all.old) + (TURNS - first)) }
    ensures room { OnOk result (count_of all.new ≡ count_of all.old
        + (TURNS - first) * cell_count (sample_size sizes.now number)) }
{
    for turn in first..TURNS {
        let part = turned_part(alloc, samples, sizes, number, turn)?;
        all.add_part(&part)?;
    }
    Ok(())
}

/// The eight turns of each of 1 or 2 samples, as parts of one volume: those of one sample after those of
/// another, in the order of the turns. The samples have at most 2^22 cells together. The one error is out
/// of memory.
pub fn turn_all(alloc: Global, samples: &Volume) -> Result<Volume, AllocError>
    requires few { length (sizes_of samples.now) ≤ MOST_TURNED }
    requires room { TURNS * count_of samples.now ≤ MOST_CELLS }
    ensures { IfOk result (λ v. v ≡ turned_of samples.now) }
{
    let sizes = samples.sizes();
    let mut all = turned_part(alloc, samples, &sizes, 1, 0)?;
    add_turns(alloc, &mut all, samples, &sizes, 1, 1)?;
    if sizes.len() == 1 {
        return Ok(all);
    }
    add_turns(alloc, &mut all, samples, &sizes, 2, 0)?;
    Ok(all)
}

// Each byte of small files, turned to each other value.
use crate::blocks::{BLOCKS, BLOCKS_NUMBERS, BLOCKS_ROWS};
use crate::cuts::{CUTS, CUTS_NUMBERS, CUTS_ROWS};
use crate::expect::expect_none;
use crate::maps::{
    CELL_MAP, CELL_MAP_NUMBERS, CELL_MAP_ROWS, FRAME_MAP, FRAME_MAP_NUMBERS, FRAME_MAP_ROWS,
    NUMBERED_MAP, NUMBERED_MAP_NUMBERS, NUMBERED_MAP_ROWS,
};
use crate::numbered_cuts::{NUMBERED_CUTS, NUMBERED_CUTS_NUMBERS, NUMBERED_CUTS_ROWS};
use crate::readers::Reader;
use crate::rows::{Table, wrong_value};
use crate::walk::{WALK, WALK_NUMBERS, WALK_ROWS};

const OF_CUTS: Table<'static> = Table {
    reader: Reader::OfRecords,
    file: CUTS,
    numbers: CUTS_NUMBERS,
    rows: CUTS_ROWS,
};

const OF_NUMBERED_CUTS: Table<'static> = Table {
    reader: Reader::OfRecords,
    file: NUMBERED_CUTS,
    numbers: NUMBERED_CUTS_NUMBERS,
    rows: NUMBERED_CUTS_ROWS,
};

const OF_BLOCKS: Table<'static> = Table {
    reader: Reader::OfRecords,
    file: BLOCKS,
    numbers: BLOCKS_NUMBERS,
    rows: BLOCKS_ROWS,
};

const OF_WALK: Table<'static> = Table {
    reader: Reader::OfRecords,
    file: WALK,
    numbers: WALK_NUMBERS,
    rows: WALK_ROWS,
};

const OF_CELL_MAP: Table<'static> = Table {
    reader: Reader::OfMaps,
    file: CELL_MAP,
    numbers: CELL_MAP_NUMBERS,
    rows: CELL_MAP_ROWS,
};

const OF_NUMBERED_MAP: Table<'static> = Table {
    reader: Reader::OfMaps,
    file: NUMBERED_MAP,
    numbers: NUMBERED_MAP_NUMBERS,
    rows: NUMBERED_MAP_ROWS,
};

const OF_FRAME_MAP: Table<'static> = Table {
    reader: Reader::OfMaps,
    file: FRAME_MAP,
    numbers: FRAME_MAP_NUMBERS,
    rows: FRAME_MAP_ROWS,
};

#[test]
fn other_bytes(rt: HostRuntime) {
    let alloc = rt.alloc();
    expect_none(&rt, wrong_value(alloc, &OF_CUTS));
    expect_none(&rt, wrong_value(alloc, &OF_NUMBERED_CUTS));
    expect_none(&rt, wrong_value(alloc, &OF_BLOCKS));
    expect_none(&rt, wrong_value(alloc, &OF_WALK));
    expect_none(&rt, wrong_value(alloc, &OF_CELL_MAP));
    expect_none(&rt, wrong_value(alloc, &OF_NUMBERED_MAP));
    expect_none(&rt, wrong_value(alloc, &OF_FRAME_MAP));
}

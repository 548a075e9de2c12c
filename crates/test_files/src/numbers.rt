// The numbers of a file, in their order; of maps and records from the version on. A choice is one
// number, whose first binary digit is its first cell; a flow is two.
use cells::{At, Size, Sizes, Volume};
use cert_file::{BlockRecord, BoundaryRecord, CutRecord, Head, RecordFile, Taps, Version};
use map_canvas::Entry;
use source_map::MapFile;
use std::alloc::AllocError;
use y4m_clip::{Clip, SpaceKind};

fn add_all<T: Copy + Into<i128>>(list: &[T], numbers: &mut Vec<i128>) -> Result<(), AllocError> {
    for number in list {
        numbers.push((*number).into())?;
    }
    Ok(())
}

fn add_sizes(sizes: &Sizes, numbers: &mut Vec<i128>) -> Result<(), AllocError> {
    for i in 0..sizes.len() {
        let Size { w, h, f } = sizes.at(i + 1);
        numbers.extend_from_slice(&[i128::from(w), i128::from(h), i128::from(f)])?;
    }
    Ok(())
}

/// The numbers of a form, how many bytes a cell has, how many parts there are, their sizes, and the
/// bytes.
pub fn add_volume(
    form: &[i128],
    volume: &Volume,
    numbers: &mut Vec<i128>,
) -> Result<(), AllocError> {
    let sizes = volume.sizes();
    numbers.extend_from_slice(form)?;
    numbers.extend_from_slice(&[i128::from(volume.samples()), i128::from(sizes.len())])?;
    add_sizes(&sizes, numbers)?;
    add_all(volume.bytes(), numbers)
}

/// A clip's colour kind, how many tags it has, and its volume.
pub fn add_clip(clip: &Clip, numbers: &mut Vec<i128>) -> Result<(), AllocError> {
    let space = match clip.form.space {
        SpaceKind::Mono => 400,
        SpaceKind::C444 => 444,
        SpaceKind::C422 => 422,
        SpaceKind::C411 => 411,
        SpaceKind::C420 => 420,
    };
    let tags = clip.form.tags.as_slice().len() as i128;
    add_volume(&[space, tags], &clip.volume, numbers)
}

// The version and the kind, the output, and the samples with their number in version 2.
fn add_head(
    version: Version,
    kind: i128,
    output: Size,
    samples: &Sizes,
    numbers: &mut Vec<i128>,
) -> Result<(), AllocError> {
    let (number, count) = match version {
        Version::One => (1, 5),
        Version::Two => (2, 6),
    };
    let Size { w, h, f } = output;
    let (w, h, f) = (i128::from(w), i128::from(h), i128::from(f));
    let head = [number, kind, w, h, f, i128::from(samples.len())];
    numbers.extend_from_slice(&head[..count])?;
    add_sizes(samples, numbers)
}

// A source, in version 2 with the number of its sample.
fn add_source(
    version: Version,
    samples: &Sizes,
    source: At,
    numbers: &mut Vec<i128>,
) -> Result<(), AllocError> {
    let Some(there) = samples.part_of(source) else {
        return numbers.extend_from_slice(&[-1]);
    };
    let first = match version {
        Version::One => 1,
        Version::Two => 0,
    };
    let At { x, y, f } = there.at;
    let place = [
        i128::from(there.part),
        i128::from(x),
        i128::from(y),
        i128::from(f),
    ];
    numbers.extend_from_slice(&place[first..])
}

fn number_of(choice: &[bool]) -> i128 {
    let mut number = 0i128;
    for bit in choice {
        number = number.wrapping_mul(2).wrapping_add(i128::from(*bit));
    }
    number
}

fn add_cut(head: &Head, cut: &CutRecord, numbers: &mut Vec<i128>) -> Result<(), AllocError> {
    let (At { x, y, f }, size) = (cut.placement.rect.corner, cut.placement.rect.size);
    numbers.extend_from_slice(&[
        i128::from(x),
        i128::from(y),
        i128::from(f),
        i128::from(size.w),
        i128::from(size.h),
        i128::from(size.f),
    ])?;
    add_source(head.version, &head.samples, cut.placement.from, numbers)?;
    numbers.push(number_of(cut.choice.as_slice()))?;
    for flow in cut.flows.as_slice() {
        numbers.extend_from_slice(&[i128::from(flow.x), i128::from(flow.y)])?;
    }
    Ok(())
}

fn add_cuts(head: &Head, cuts: &[CutRecord], numbers: &mut Vec<i128>) -> Result<(), AllocError> {
    numbers.push(cuts.len() as i128)?;
    for cut in cuts {
        add_cut(head, cut, numbers)?;
    }
    Ok(())
}

// A strip's columns, path and sums.
fn add_boundary(
    boundary: &Option<BoundaryRecord>,
    numbers: &mut Vec<i128>,
) -> Result<(), AllocError> {
    let Some(boundary) = boundary else {
        return Ok(());
    };
    let path = boundary.path.as_slice();
    let sums = boundary.sums.as_slice();
    numbers.push((sums.len() / path.len().max(1)) as i128)?;
    add_all(path, numbers)?;
    add_all(sums, numbers)
}

// A block's box, its source, and which boundaries it has: 1 for the left one, 2 for the top one.
// Then these.
fn add_block(block: &BlockRecord, numbers: &mut Vec<i128>) -> Result<(), AllocError> {
    let flags = match (block.left.is_some(), block.top.is_some()) {
        (false, false) => 0,
        (true, false) => 1,
        (false, true) => 2,
        (true, true) => 3,
    };
    let rect = &block.placement.rect;
    let from = &block.placement.from;
    numbers.extend_from_slice(&[
        i128::from(rect.corner.x),
        i128::from(rect.corner.y),
        i128::from(rect.size.w),
        i128::from(rect.size.h),
        i128::from(from.x),
        i128::from(from.y),
        flags,
    ])?;
    add_boundary(&block.left, numbers)?;
    add_boundary(&block.top, numbers)
}

fn add_blocks(blocks: &[BlockRecord], numbers: &mut Vec<i128>) -> Result<(), AllocError> {
    numbers.push(blocks.len() as i128)?;
    for block in blocks {
        add_block(block, numbers)?;
    }
    Ok(())
}

fn add_walk(
    taps: Taps,
    gap: u32,
    walk: &[u16],
    tables: &[u64],
    numbers: &mut Vec<i128>,
) -> Result<(), AllocError> {
    let taps = match taps {
        Taps::None0 => 0,
        Taps::Two => 2,
        Taps::Four => 4,
    };
    numbers.extend_from_slice(&[walk.len() as i128, taps, i128::from(gap)])?;
    add_all(walk, numbers)?;
    add_all(tables, numbers)
}

/// The numbers of a record file.
pub fn add_record(file: &RecordFile, numbers: &mut Vec<i128>) -> Result<(), AllocError> {
    let (head, kind) = match file {
        RecordFile::Cuts { head, .. } => (head, 0),
        RecordFile::Blocks { head, .. } => (head, 1),
        RecordFile::Walk { head, .. } => (head, 2),
    };
    add_head(head.version, kind, head.output, &head.samples, numbers)?;
    match file {
        RecordFile::Cuts { cuts, .. } => add_cuts(head, cuts.as_slice(), numbers),
        RecordFile::Blocks { blocks, .. } => add_blocks(blocks.as_slice(), numbers),
        RecordFile::Walk {
            taps,
            gap,
            walk,
            tables,
            ..
        } => add_walk(*taps, *gap, walk.as_slice(), tables.as_slice(), numbers),
    }
}

fn add_sources(
    version: Version,
    samples: &Sizes,
    sources: &[Entry],
    numbers: &mut Vec<i128>,
) -> Result<(), AllocError> {
    for source in sources {
        let Some(source) = source.source() else {
            return numbers.extend_from_slice(&[-1]);
        };
        add_source(version, samples, source, numbers)?;
    }
    Ok(())
}

/// The numbers of a map file.
pub fn add_map(file: &MapFile, numbers: &mut Vec<i128>) -> Result<(), AllocError> {
    match file {
        MapFile::Cells {
            map,
            samples,
            version,
        } => {
            add_head(*version, 0, map.size(), samples, numbers)?;
            add_sources(*version, samples, map.sources(), numbers)
        }
        MapFile::Frames {
            size,
            sample,
            frames,
        } => {
            numbers.extend_from_slice(&[
                1,
                1,
                i128::from(size.w),
                i128::from(size.h),
                i128::from(size.f),
                i128::from(sample.w),
                i128::from(sample.h),
                i128::from(sample.f),
            ])?;
            add_all(frames.as_slice(), numbers)
        }
    }
}

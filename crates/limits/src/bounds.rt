// Every bound, by what it bounds: volumes, files, outputs and records, words.

/// The most cells on one axis of a volume, in a file or in a job: columns, rows or frames. A side of a
/// patch or a block has the same bound.
pub const GREATEST_AXIS: u32 = 4096;

/// The most cells of a volume, of all its parts together.
pub const MOST_CELLS: usize = 33_554_432;

/// The most bytes of a cell.
pub const MOST_CHANNELS: u32 = 6;

/// The most parts of a volume: one for each sample of a run, or for each picture that is merged.
pub const MOST_PARTS: u32 = 16;

/// The most cells of a sample, of all samples of a run together, and of any other picture that is read.
pub const MOST_SAMPLE_CELLS: u64 = 8_388_608;

/// The most cells of an out file that is a clip, all its frames together, where `check` reads it.
pub const MOST_OUT_CLIP_CELLS: u64 = 33_554_432;

/// The most cells of an output that a map file has cell by cell.
pub const MOST_MAP_CELLS: u64 = 1_048_576;

/// The most bytes of a picture's header.
pub const MOST_HEADER_BYTES: u64 = 65_536;

/// The most bytes of a clip's stream line, and of each of its frame lines.
pub const MOST_LINE_BYTES: u64 = 4096;

/// The most bytes of the tags that a clip carries on, with one blank before each.
pub const MOST_TAG_BYTES: u64 = 4000;

/// The most frames of an output that is a picture.
pub const MOST_PICTURE_FRAMES: u32 = 1;

/// The most frames of a clip that a loop is made of, also in a walk record.
pub const MOST_LOOP_FRAMES: u32 = 256;

/// The most cells of an output that is grown, quilted, tiled or merged.
pub const MOST_OUTPUT_CELLS: u64 = 1_048_576;

/// The most cells of a loop, all its frames together.
pub const MOST_LOOP_CELLS: u64 = 33_554_432;

/// The most frames of a loop, asked for, or in a walk record.
pub const LONGEST_LOOP: u32 = 4096;

/// The most cells of the boxes that one output is grown or quilted of, or of one record file, all boxes
/// together.
pub const MOST_BOX_CELLS: u64 = 33_554_432;

/// The greatest overlap of neighbouring patches or blocks, in cells.
pub const GREATEST_OVERLAP: u32 = 4095;

/// The greatest tolerance of a pick, in hundredths of the best error.
pub const GREATEST_TOLERANCE: u32 = 1000;

/// The greatest weight of the overlap's error beside that of a target, in hundredths.
pub const GREATEST_ALPHA: u32 = 100;

/// The fewest cells of an output on an axis on which its edges are to meet.
pub const LEAST_WRAPPED_AXIS: u32 = 3;

/// The most rounds of refinement.
pub const MOST_ROUNDS: u32 = 1000;

/// The greatest distance, in frames from the next one, at which a loop's jump may be asked to end at the
/// least, also in a walk record.
pub const WIDEST_GAP: u32 = 256;

/// The greatest seed of draws.
pub const GREATEST_SEED: u64 = 18_446_744_073_709_551_615;

/// The greatest number of which `trial` makes a sample.
pub const GREATEST_SAMPLE_NUMBER: u32 = 4_294_967_295;

// The fields of a walk record, as they are read.
ghost use Rattle.std.specs.Prelude.{◌≡◌, ◌≤◌, ◌<◌, ◌+◌, ◌^◌, IfOk, IfErr, OnOk};
ghost use Rattle.shelf_traits.specs.Files.{OnlyReadsFile};
ghost use Rattle.file_bytes.specs.Reading.{Follows};
ghost use Rattle.source_map.specs.Readings.{IsRefusal, ReadsFrom};
ghost use Rattle.cert_file.specs.WalkReading.{IsStart, frames_rule, gap_rule, length_rule, taps_rule, walk_start_read};

use cells::Taps;
use file_bytes::FileReader;
use limits::{LONGEST_LOOP, MOST_LOOP_FRAMES, WIDEST_GAP};
use shelf_traits::{FormFault, ReadError, Shelf, What};

// What comes before the frames of a walk.
#[derive(Clone, Copy, Drop)]
pub struct WalkStart {
    pub length: u32,
    pub taps: Taps,
    pub gap: u32,
}

// Whether the sample's frames are few enough.
pub(crate) fn lawful_frames(n: u32) -> Result<(), ReadError>
    ensures frames { result ≡ frames_rule n }
    ensures few { OnOk result (n ≤ MOST_LOOP_FRAMES) }
    ensures refusal { IfErr result IsRefusal }
{
    if n <= MOST_LOOP_FRAMES {
        Ok(())
    } else {
        Err(ReadError::Limit {
            what: What::Frames,
            number: u64::from(n),
            bound: u64::from(MOST_LOOP_FRAMES),
        })
    }
}

// The length, if it is from 1 to the greatest.
fn lawful_length(n: u32, at: u64) -> Result<u32, ReadError>
    ensures len { result ≡ length_rule at n }
    ensures within { IfOk result (λ n. (1 ≤ n) × (n ≤ LONGEST_LOOP)) }
    ensures refusal { IfErr result IsRefusal }
{
    if n == 0 {
        Err(ReadError::Bad(FormFault::Form(at)))
    } else if n <= LONGEST_LOOP {
        Ok(n)
    } else {
        Err(ReadError::Limit {
            what: What::Loop,
            number: u64::from(n),
            bound: u64::from(LONGEST_LOOP),
        })
    }
}

// The filter that has so many taps.
fn lawful_taps(n: u8, at: u64) -> Result<Taps, ReadError>
    ensures taps { result ≡ taps_rule at n }
    ensures refusal { IfErr result IsRefusal }
{
    if n == 0 {
        Ok(Taps::None0)
    } else if n == 2 {
        Ok(Taps::Two)
    } else if n == 4 {
        Ok(Taps::Four)
    } else {
        Err(ReadError::Bad(FormFault::Form(at)))
    }
}

// The gap, if it is from 1 to the greatest.
fn lawful_gap(n: u16, at: u64) -> Result<u32, ReadError>
    ensures gap { result ≡ gap_rule at n }
    ensures within { IfOk result (λ n. (1 ≤ n) × (n ≤ WIDEST_GAP)) }
    ensures refusal { IfErr result IsRefusal }
{
    if n == 0 || u32::from(n) > WIDEST_GAP {
        Err(ReadError::Bad(FormFault::Form(at)))
    } else {
        Ok(u32::from(n))
    }
}

// Reads what comes before the frames of a walk.
pub(crate) fn read_walk_start<S: Shelf>(
    file: &mut FileReader,
    shelf: &mut S,
    name: &str,
) -> Result<WalkStart, ReadError>
    requires follows { Follows name.now (S.state shelf.old) file.old }
    requires room { file.old.at < 2 ^ 62 }
    ensures answer { ReadsFrom ⊥ name.now file.old.at (S.state shelf.old) (S.state shelf.new)
        file.new walk_start_read result }
    ensures within { IfOk result IsStart }
    ensures place { OnOk result (file.new.at ≡ file.old.at + 7) }
    ensures reads { OnlyReadsFile name.now (S.state shelf.old) (S.state shelf.new) }
{
    let at = file.place();
    let n = file.number(shelf, name)?;
    let length = lawful_length(n, at)?;
    let at = file.place();
    let n = file.u8(shelf, name)?;
    let taps = lawful_taps(n, at)?;
    let at = file.place();
    let n = file.number(shelf, name)?;
    let gap = lawful_gap(n, at)?;
    Ok(WalkStart { length, taps, gap })
}

// Sources of version 1 whose bytes wait in the reader: they are taken without a call for each number.
ghost use Rattle.std.specs.Prelude.{◌≡◌, ◌≤◌, ◌<◌, ◌+◌, ◌*◌, ◌^◌, ℕ, List, length, IfSome, vec_len, vec_capacity};
ghost use Rattle.shelf_traits.specs.Files.{ShelfState};
ghost use Rattle.cells.specs.Places.{IsInside};
ghost use Rattle.cells.specs.SizeLists.{AreSizes};
ghost use Rattle.file_bytes.specs.Reading.{Follows};
ghost use Rattle.source_map.specs.declared.head.Version.TheVariants as versions;
ghost use Rattle.source_map.specs.MapFiles.{source_read};
ghost use Rattle.source_map.specs.Waiting.{AreSourcesIn, Extends, ExtendsIn, PlaceWaits};

use crate::head::Version;
use crate::map_reading::place_at;
use cells::{At, Size, Sizes};
use file_bytes::{Field, FileReader};
use map_canvas::Entry;

// The place whose bytes wait from an index on, if it is inside a size.
#[inline(always)]
fn waiting_place(waiting: &[u8], size: Size, i: usize) -> Option<At>
    requires { i + 6 ≤ length waiting.now }
    ensures waits { IfSome result (PlaceWaits size waiting.now i) }
    ensures inside { IfSome result (IsInside size) }
{
    let x = u16::of(&waiting[i..i + 2]);
    let y = u16::of(&waiting[i + 2..i + 4]);
    let f = u16::of(&waiting[i + 4..i + 6]);
    if u32::from(x) < size.w && u32::from(y) < size.h && u32::from(f) < size.f {
        Some(place_at(x, y, f))
    } else {
        None
    }
}

// Takes places of the one sample from bytes that wait, up to so many, and stops before the first that
// isn't inside. It tells how many they are.
fn take_places(waiting: &[u8], samples: &Sizes, most: usize, sources: &mut Vec<Entry>) -> usize
    requires samples { AreSizes samples.now }
    requires waits { 6 * most ≤ length waiting.now }
    requires room { vec_len sources.old + most ≤ vec_capacity sources.old }
    ensures most { result ≤ most }
    ensures count { vec_len sources.new ≡ vec_len sources.old + result }
    ensures capacity { vec_capacity sources.new ≡ vec_capacity sources.old }
    ensures grows { ExtendsIn (source_read versions.One samples.now) waiting.now (6 * result)
        sources.old.items sources.new.items }
    ensures sources { AreSourcesIn samples.now sources.old.items →
        AreSourcesIn samples.now sources.new.items }
{
    let size = samples.at(1);
    for n in 0..most {
        let Some(from) = waiting_place(waiting, size, 6 * n) else {
            return n;
        };
        sources.push_reserved(Entry::new(Some(from)));
    }
    most
}

/// Takes sources of version 1 that wait whole, as far as they are inside the sample and the list has room
/// for them, and no more than are missing. It tells how many they are, and takes no memory.
pub(crate) fn take_sources(
    file: &mut FileReader,
    version: Version,
    samples: &Sizes,
    sources: &mut Vec<Entry>,
    missing: usize,
) -> usize
    requires samples { AreSizes samples.now }
    requires room { file.old.at + 8 * missing < 2 ^ 63 }
    ensures most { result ≤ missing }
    ensures count { vec_len sources.new ≡ vec_len sources.old + result }
    ensures capacity { vec_capacity sources.new ≡ vec_capacity sources.old }
    ensures place { file.new.at ≡ file.old.at + 6 * result }
    ensures follows { (name : List ℕ) (now : ShelfState) →
        Follows name now file.old → Follows name now file.new }
    ensures grows { (name : List ℕ) (now : ShelfState) →
        Extends (source_read version samples.now)
        name now file.old sources.old.items now file.new sources.new.items }
    ensures sources { AreSourcesIn samples.now sources.old.items →
        AreSourcesIn samples.now sources.new.items }
{
    if let Version::Two = version {
        return 0;
    }
    let room = sources.capacity() - sources.len();
    let waiting = file.waiting();
    let most = (waiting.len() / 6).min(room).min(missing);
    let n = take_places(waiting, samples, most, sources);
    file.skip(6 * n);
    n
}

// The sizes of turned samples, and their places.
ghost use Rattle.std.specs.Prelude.{◌≡◌, ◌≤◌, ◌+◌, ◌-◌, ◌*◌, ◌++◌, length, map};
ghost use Rattle.std.specs.List.{range_with_len};
ghost use Rattle.cells.specs.Places.{HasAxes};
ghost use Rattle.turned.specs.Turns.{turn_size};
ghost use Rattle.turned.specs.TurnedParts.{turned_sizes_of};
ghost use Rattle.turned.specs.TurnedPlaces.{IsInTurned, IsTurned, IsUntouched, turned_place};

use crate::turn::{TURNS, turn_from, turn_to, turned_size};
use cells::{At, Size, Sizes};

/// The most samples that are turned: as many parts as a volume may have are their turns.
pub const MOST_TURNED: u32 = 2;

/// A cell of a sample, and a turn of that sample.
#[derive(Clone, Copy, Drop, PartialEq, Eq)]
pub struct Turned {
    /// The number of the sample, from 1.
    pub sample: u32,
    /// The turn, from 0 to 7: a mirror along X from 4 on, and then as many quarter turns clockwise as the
    /// rest of a division by 4 says.
    pub turn: u32,
    /// The place of the cell in the sample, as it is before the turn.
    pub at: At,
}

// Puts the sizes of some turns of a sample after others, from one turn on.
fn add_turns(sizes: &mut Sizes, first: u32, size: Size)
    requires first { first ≤ TURNS }
    requires axes { HasAxes size }
    requires few { length sizes.old ≤ first + 8 }
    ensures { sizes.new ≡ sizes.old
        ++ map (λ t. turn_size t size) (range_with_len first (TURNS - first)) }
{
    for turn in first..TURNS {
        sizes.add(turned_size(turn, size));
    }
}

/// The sizes of the eight turns of each sample, in the order of the turns, those of one sample after those
/// of another.
pub fn turned_sizes(samples: &Sizes) -> Sizes
    requires { length samples.now ≤ MOST_TURNED }
    ensures { result ≡ turned_sizes_of samples.now }
{
    let count = samples.len();
    let first = samples.at(1);
    let mut sizes = Sizes::one(first);
    add_turns(&mut sizes, 1, first);
    if count == 1 {
        return sizes;
    }
    let second = samples.at(2);
    add_turns(&mut sizes, 0, second);
    sizes
}

/// The same as [`untouched`], for a caller that has the sizes of the turned samples.
pub fn untouched_with(samples: &Sizes, sizes: &Sizes, at: At) -> Turned
    requires few { length samples.now ≤ MOST_TURNED }
    requires sizes { sizes.now ≡ turned_sizes_of samples.now }
    requires inside { IsInTurned samples.now at }
    ensures untouched { IsUntouched samples.now at result }
    ensures back { turned_place samples.now result ≡ at }
{
    let there = sizes.part_of(at).unwrap();
    let sample = (there.part - 1) / TURNS + 1;
    let turn = (there.part - 1) % TURNS;
    Turned {
        sample,
        turn,
        at: turn_from(turn, samples.at(sample), there.at),
    }
}

/// The cell of the samples that is moved to a place of the turned samples, and the turn that moves it. The
/// sizes are those of the samples as they are before.
pub fn untouched(samples: &Sizes, at: At) -> Turned
    requires few { length samples.now ≤ MOST_TURNED }
    requires inside { IsInTurned samples.now at }
    ensures untouched { IsUntouched samples.now at result }
    ensures back { turned_place samples.now result ≡ at }
{
    untouched_with(samples, &turned_sizes(samples), at)
}

/// The place of the turned samples to which a turn moves a cell: the way back from [`untouched`]. The
/// caller has the sizes of the turned samples.
pub fn turned_place(samples: &Sizes, sizes: &Sizes, there: Turned) -> At
    requires few { length samples.now ≤ MOST_TURNED }
    requires sizes { sizes.now ≡ turned_sizes_of samples.now }
    requires turned { IsTurned samples.now there }
    ensures place { result ≡ turned_place samples.now there }
    ensures inside { IsInTurned samples.now result }
    ensures untouched { IsUntouched samples.now result there }
{
    let size = samples.at(there.sample);
    let part = TURNS * (there.sample - 1) + there.turn + 1;
    sizes.stock(part, turn_to(there.turn, size, there.at))
}

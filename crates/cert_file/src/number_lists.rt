// Lists of numbers, as they are read.
ghost use Rattle.std.specs.Prelude.{◌≡◌, ◌<◌, ◌+◌, ◌*◌, ◌^◌, All, IfOk, OnOk, length};
ghost use Rattle.std.specs.Int.{w16};
ghost use Rattle.shelf_traits.specs.Files.{OnlyReadsFile};
ghost use Rattle.file_bytes.specs.Reading.{Follows};
ghost use Rattle.source_map.specs.Readings.{ReadsFrom, list_read, number_read};
ghost use Rattle.cert_file.specs.Rules.{any_rule};

use file_bytes::FileReader;
use items::Items;
use shelf_traits::{ReadError, Shelf};
use std::alloc::Global;

// Shows that the numbers of a list have 16 bits, as its type says.
pub(crate) fn fit_16(numbers: &[u16])
    ensures { All (λ n. n < 2 ^ 16) numbers.now }
{}

// Shows that the numbers of a list have 32 bits, as its type says.
pub(crate) fn fit_32(numbers: &[u32])
    ensures { All (λ n. n < 2 ^ 32) numbers.now }
{}

// Shows that the numbers of a list have 64 bits, as its type says.
pub(crate) fn fit_64(numbers: &[u64])
    ensures { All (λ n. n < 2 ^ 64) numbers.now }
{}

// Reads so many numbers of 2 bytes.
pub(crate) fn read_list_16<S: Shelf>(
    alloc: Global,
    file: &mut FileReader,
    count: usize,
    shelf: &mut S,
    name: &str,
) -> Result<Items<u16>, ReadError>
    requires follows { Follows name.now (S.state shelf.old) file.old }
    requires room { file.old.at + 2 * count < 2 ^ 63 }
    ensures answer { ReadsFrom (Unit {0}) name.now file.old.at (S.state shelf.old)
        (S.state shelf.new) file.new (list_read (number_read w16 any_rule) count) result }
    ensures count { IfOk result (λ numbers. length numbers ≡ count) }
    ensures place { OnOk result (file.new.at ≡ file.old.at + 2 * count) }
    ensures reads { OnlyReadsFile name.now (S.state shelf.old) (S.state shelf.new) }
{
    match file.list(alloc, count, shelf, name) {
        Ok(numbers) => {
            fit_16(&numbers);
            Ok(Items::from_vec(numbers))
        }
        Err(error) => Err(error),
    }
}

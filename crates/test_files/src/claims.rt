// Files that claim far more than they hold. Their readers take memory as bytes come, and not by
// what is claimed: the memory of the process is counted.
use crate::expect::expect_none;
use crate::files::File;
use crate::files::File::Long;
use crate::readers::Reader::OfRecords;
use crate::readers::refusal;
use shelf_core::FormFault::Form;
use shelf_core::ReadError::Bad;
use std::alloc::AllocError;
use std::fs;

// The most memory that the process has had so far, in KiB, where the system tells it, as Linux
// does.
fn peak(rt: &HostRuntime) -> Result<Option<u64>, AllocError> {
    let Ok(status) = fs::read_to_string(rt, "/proc/self/status") else {
        return Ok(None);
    };
    let mut words = status.as_str().split_whitespace();
    let _name = words.find(|word| *word == "VmPeak:");
    match words.next() {
        Some(word) => Ok(word.parse::<u64>().ok()),
        None => Ok(None),
    }
}

// A file that ends after a claim: its sizes, and what follows them, then so many zeros. How many
// bytes it has, and how many KiB a reader may take.
type Claim<'a> = (File<'a>, u64, u64);

const CLAIMS: &[Claim<'static>] = &[
    // 2^32 - 1 records, of cuts and of blocks.
    (
        Long(
            b"WEAVEREC\x01\x00\0\0\0\x06\0\0\0\x01\0\0\0\x01\0\0\0\x04\0\0\0\x01\0\0\0\x01\
            \xff\xff\xff\xff",
            0,
            0,
            b"",
        ),
        38,
        1024,
    ),
    (
        Long(
            b"WEAVEREC\x01\x01\0\0\0\x06\0\0\0\x01\0\0\0\x01\0\0\0\x04\0\0\0\x01\0\0\0\x01\
            \xff\xff\xff\xff",
            0,
            0,
            b"",
        ),
        38,
        1024,
    ),
    // A record of 8192 x 4096 cells, of which 256 have come.
    (
        Long(
            b"WEAVEREC\x01\x00\0\0\0\x06\0\0\0\x01\0\0\0\x01\0\0\0\x04\0\0\0\x01\0\0\0\x01\
            \0\0\0\x01\0\0\0\0\0\0\x20\0\x10\0\0\x01",
            38,
            0,
            b"",
        ),
        88,
        1024,
    ),
    // One of 256 x 128 x 128 cells with its choice. The flows would take 49,152 KiB; a list that
    // grows by eighths and gives nothing back takes 36,864 for the choice.
    (
        Long(
            b"WEAVEREC\x01\x00\0\0\0\x06\0\0\0\x01\0\0\0\x01\0\0\0\x04\0\0\0\x01\0\0\0\x01\
            \0\0\0\x01\0\0\0\0\0\0\x01\0\0\x80\0\x80",
            524294,
            0,
            b"",
        ),
        524344,
        45056,
    ),
    // A block of 8192 x 4096 cells that is a strip, with its path. The sums would take 131,072
    // KiB.
    (
        Long(
            b"WEAVEREC\x01\x01\0\0\0\x06\0\0\0\x01\0\0\0\x01\0\0\0\x04\0\0\0\x01\0\0\0\x01\
            \0\0\0\x01\0\0\0\0\x20\0\x10\0\0\0\0\0\x01\x20\0",
            8192,
            0,
            b"",
        ),
        8245,
        1024,
    ),
    // The longest walk over the most frames. Its tables would take 6,144 KiB.
    (
        Long(
            b"WEAVEREC\x01\x02\0\0\0\x01\0\0\0\x01\0\0\x10\0\0\0\0\x01\0\0\0\x01\0\0\x01\0\
            \0\0\x10\0\x04\0\x01",
            8192,
            0,
            b"",
        ),
        8233,
        1024,
    ),
];

// Whether a file is refused at its end, for more memory than the process had before at most by so
// many KiB.
fn is_modest(rt: &HostRuntime, claim: &Claim) -> Result<bool, AllocError> {
    let (file, length, room) = claim;
    let before = peak(rt)?.unwrap_or(0);
    let refused = refusal(rt.alloc(), &OfRecords, file)?;
    let after = peak(rt)?.unwrap_or(0);
    let is_little = after.saturating_sub(before) <= *room;
    Ok((refused == Some(Bad(Form(*length)))) & is_little)
}

// The number of the first claim, from 0, that takes more.
fn wrong_claim(rt: &HostRuntime) -> Result<Option<usize>, AllocError> {
    for (i, claim) in CLAIMS.iter().enumerate() {
        if !is_modest(rt, claim)? {
            return Ok(Some(i));
        }
    }
    Ok(None)
}

#[test]
fn claims_take_no_memory(rt: HostRuntime) {
    expect_none(&rt, wrong_claim(&rt));
}

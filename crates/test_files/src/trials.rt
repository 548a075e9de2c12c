// The sample of a number, against bytes that a program of another language made of ChaCha8's
// words.
use crate::expect::expect_none;
use cells::At;
use outputs::trial_sample;
use std::alloc::{AllocError, Global};

const FIRST: At = At { x: 0, y: 0, f: 0 };

const LAST: At = At { x: 63, y: 63, f: 0 };

// A number, the first and the last cell of its sample, and the sum of all bytes.
const SAMPLES: &[(u32, [u8; 3], [u8; 3], u64)] = &[
    (1, [5, 59, 8], [43, 47, 14], 973413),
    (4294967295, [25, 58, 43], [30, 4, 24], 978876),
];

fn sum_of(bytes: &[u8]) -> u64 {
    let mut all = 0;
    for byte in bytes {
        all = u64::min(all, 1_000_000) + u64::from(*byte);
    }
    all
}

// The number of the first sample, from 0, with other bytes.
fn wrong_sample(alloc: Global) -> Result<Option<usize>, AllocError> {
    for (i, (n, first, last, sum)) in SAMPLES.iter().enumerate() {
        let sample = trial_sample(alloc, *n)?;
        let is_first = sample.cell(FIRST) == Some(first.as_slice());
        let is_last = sample.cell(LAST) == Some(last.as_slice());
        if !(is_first & is_last & (sum_of(sample.bytes()) == *sum)) {
            return Ok(Some(i));
        }
    }
    Ok(None)
}

#[test]
fn bytes_of_two_samples(rt: HostRuntime) {
    expect_none(&rt, wrong_sample(rt.alloc()));
}

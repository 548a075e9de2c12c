// Worked examples of sums over rows.
use crate::expect::expect_true;
use lane_kernels::{sad, ssd, ssd_masked};

const WHITE: [u8; 1000] = [255; 1000];

const BLACK: [u8; 1000] = [0; 1000];

#[test]
fn worked_examples(rt: HostRuntime) {
    let are_none = (sad(&[], &[]) == 0) & (ssd(&[], &[]) == 0) & (ssd_masked(&[], &[], &[]) == 0);
    let are_short = (sad(&[0, 255], &[255, 0]) == 510)
        & (ssd(&[0, 255], &[255, 0]) == 130_050)
        & (ssd_masked(&[0, 255], &[255, 0], &[0, 1]) == 65_025);
    let mut last = BLACK;
    last[999] = 1;
    let are_long = (sad(&WHITE, &BLACK) == 255_000)
        & (ssd(&WHITE, &BLACK) == 65_025_000)
        & (ssd_masked(&WHITE, &BLACK, &last) == 65_025);
    expect_true(&rt, are_none & are_short & are_long);
}

// Words, sizes and pictures that `grow` refuses, each with its line.
use crate::tables::{Table, expect_table};
use test_stage::{Long, ONE_CELL, SIX_CELLS};

const WORDS: &[(&str, u8, &str)] = &[
    ("", 2, "weave: no command\n"),
    ("transfer", 2, "weave: missing key sample\n"),
    ("sample=s grow", 2, "weave: unknown command\n"),
    ("grow", 2, "weave: missing key sample\n"),
    ("grow sample", 2, "weave: word 2: not key=value\n"),
    ("grow =x", 2, "weave: word 2: not key=value\n"),
    ("grow sample=", 2, "weave: word 2: not key=value\n"),
    ("grow length=3", 2, "weave: word 2: unknown key\n"),
    ("grow größe=3", 2, "weave: word 2: unknown key\n"),
    ("grow width=7 width=8", 2, "weave: word 3: repeated key\n"),
    ("grow place=best", 2, "weave: word 2: bad value\n"),
    ("grow width=٣", 2, "weave: word 2: bad value\n"),
    ("grow width=0", 2, "weave: word 2: out of range\n"),
    ("grow width=4097", 2, "weave: word 2: out of range\n"),
    ("grow rounds=1001", 2, "weave: word 2: out of range\n"),
    ("grow out=a map=a", 2, "weave: word 3: name already used\n"),
    (
        "grow sample=s sample3=t out=o map=m record=r width=3 height=2",
        2,
        "weave: missing key sample2\n",
    ),
    (
        "grow sample=s out=s map=m record=r width=3 height=2 place=grid overlap=0",
        2,
        "weave: word 3: name already used\n",
    ),
    (
        "grow sample=s out=o map=m record=r height=2",
        2,
        "weave: missing key width\n",
    ),
];

// Widths of 400 digits.
const NINES: &str = "grow width=\
    99999999999999999999999999999999999999999999999999999999999999999999999999999999\
    99999999999999999999999999999999999999999999999999999999999999999999999999999999\
    99999999999999999999999999999999999999999999999999999999999999999999999999999999\
    99999999999999999999999999999999999999999999999999999999999999999999999999999999\
    99999999999999999999999999999999999999999999999999999999999999999999999999999997";

const ZEROS: &str = "grow width=\
    00000000000000000000000000000000000000000000000000000000000000000000000000000000\
    00000000000000000000000000000000000000000000000000000000000000000000000000000000\
    00000000000000000000000000000000000000000000000000000000000000000000000000000000\
    00000000000000000000000000000000000000000000000000000000000000000000000000000000\
    00000000000000000000000000000000000000000000000000000000000000000000000000000000";

const SEVEN: &str = "grow width=\
    00000000000000000000000000000000000000000000000000000000000000000000000000000000\
    00000000000000000000000000000000000000000000000000000000000000000000000000000000\
    00000000000000000000000000000000000000000000000000000000000000000000000000000000\
    00000000000000000000000000000000000000000000000000000000000000000000000000000000\
    00000000000000000000000000000000000000000000000000000000000000000000000000000007";

const WIDTHS: &[(&str, u8, &str)] = &[
    (NINES, 2, "weave: word 2: out of range\n"),
    (ZEROS, 2, "weave: word 2: out of range\n"),
    (SEVEN, 2, "weave: missing key sample\n"),
];

const ABOVE_THE_BOUND: &[(&str, u8, &str)] = &[
    (
        "grow sample=s out=o map=m record=r width=1025 height=1024",
        4,
        "weave: limit output 1049600 over 1048576\n",
    ),
    (
        "grow sample=s out=o map=m record=r width=1025 height=1024 frames=2",
        4,
        "weave: limit frames 2 over 1\n",
    ),
];

const PICTURES: &[(&[u8], u8, &str)] = &[
    (b"P6\n2 1\n255\nabcde", 3, "weave: sample: form at 16\n"),
    (
        b"P6\n2 1\n255\nabcdefg",
        3,
        "weave: sample: trailing at 17\n",
    ),
    (b"P6\n2 1\n65535\nabcdefabcdef", 3, "weave: sample: depth\n"),
    (
        b"P6\n1 1\n15\n\x0f\x10\x00",
        3,
        "weave: sample: value at 11\n",
    ),
    (b"", 3, "weave: sample: form at 0\n"),
    (b"P5\n1 1\n255\nabc", 3, "weave: sample: form at 1\n"),
    (b"P6\n0 1\n255\n", 3, "weave: sample: form at 4\n"),
    (b"P6\n1 1\n255#\nabc", 3, "weave: sample: form at 10\n"),
    (
        b"P6#a\n1#b\n1#c\n255\nabcd",
        3,
        "weave: sample: trailing at 20\n",
    ),
    (
        b"P6 #a\n1 #b\n1 #c\n255\nabcd",
        3,
        "weave: sample: trailing at 23\n",
    ),
    (
        b"P6\n99999999999999999999 1\n255\n",
        4,
        "weave: limit axis 18446744073709551615 over 4096\n",
    ),
    (
        b"P6\n4097 1\n255\n",
        4,
        "weave: limit axis 4097 over 4096\n",
    ),
    (
        b"P6\n4096 4096\n255\n",
        4,
        "weave: limit cells 16777216 over 8388608\n",
    ),
    (b"P6\n4096 4096\n256\n", 3, "weave: sample: depth\n"),
    (b"P6\n4096 4096\n255", 3, "weave: sample: form at 16\n"),
    (
        b"P6\n1 1\n1\n\x00\x01\x02",
        3,
        "weave: sample: value at 11\n",
    ),
    (b"P6\n1 1\n15\n\x0f\x0e", 3, "weave: sample: form at 12\n"),
    (b"Q", 3, "weave: sample: form at 0\n"),
];

// Headers that go on through so many bytes of a comment, and then end as given.
const LONG_HEADERS: &[Long<'static>] = &[
    (b"P6\n#", 65_532, b"", 3, "weave: sample: form at 65536\n"),
    (
        b"P6\n#",
        65_533,
        b"",
        4,
        "weave: limit header 65537 over 65536\n",
    ),
    (
        b"P6\n#",
        65_524,
        b"\n1 1 255 abc",
        4,
        "weave: limit header 65537 over 65536\n",
    ),
    (
        b"P6\n#",
        65_523,
        b"\n1 1 255 abcd",
        3,
        "weave: sample: trailing at 65539\n",
    ),
    (
        b"P6\n#",
        65_523,
        b"\n1 1 255 ab",
        3,
        "weave: sample: form at 65538\n",
    ),
];

#[test]
fn words_and_pictures(rt: HostRuntime) {
    expect_table(&rt, rt.alloc(), Table::Words(ONE_CELL, WORDS));
    expect_table(&rt, rt.alloc(), Table::Words(ONE_CELL, WIDTHS));
    expect_table(&rt, rt.alloc(), Table::Words(ONE_CELL, ABOVE_THE_BOUND));
    expect_table(&rt, rt.alloc(), Table::Samples(SIX_CELLS, PICTURES));
    expect_table(&rt, rt.alloc(), Table::Long(SIX_CELLS, b'a', LONG_HEADERS));
}

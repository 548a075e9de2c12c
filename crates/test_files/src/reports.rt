// Faults and reports, as they are said.
use crate::expect::{expect_none, expect_true};
use cells::Size;
use job_words::{Key, WordFault};
use shelf_core::{FormFault, MemSink, What};
use std::alloc::{AllocError, Global};
use synth_report::{Fault, FileOf, Summary, report, say_fault, status};

// Faults, with their statuses and their lines.
const LINES: &[(Fault, u8, &str)] = &[
    (Fault::Words(WordFault::NoCommand), 2, "weave: no command\n"),
    (
        Fault::Words(WordFault::UnknownCommand),
        2,
        "weave: unknown command\n",
    ),
    (
        Fault::Words(WordFault::BadWord(2)),
        2,
        "weave: word 2: not key=value\n",
    ),
    (
        Fault::Words(WordFault::UnknownKey(2)),
        2,
        "weave: word 2: unknown key\n",
    ),
    (
        Fault::Words(WordFault::Repeated(3)),
        2,
        "weave: word 3: repeated key\n",
    ),
    (
        Fault::Words(WordFault::Missing(Key::Sample)),
        2,
        "weave: missing key sample\n",
    ),
    (
        Fault::Words(WordFault::Missing(Key::Record)),
        2,
        "weave: missing key record\n",
    ),
    (
        Fault::Words(WordFault::BadValue(2)),
        2,
        "weave: word 2: bad value\n",
    ),
    (
        Fault::Words(WordFault::OutOfRange(2)),
        2,
        "weave: word 2: out of range\n",
    ),
    (
        Fault::Words(WordFault::SameName(3)),
        2,
        "weave: word 3: name already used\n",
    ),
    (Fault::Words(WordFault::NoMemory), 7, "weave: no memory\n"),
    (
        Fault::Form {
            file: FileOf::Sample,
            why: FormFault::Form(16),
        },
        3,
        "weave: sample: form at 16\n",
    ),
    (
        Fault::Form {
            file: FileOf::Sample,
            why: FormFault::Depth,
        },
        3,
        "weave: sample: depth\n",
    ),
    (
        Fault::Form {
            file: FileOf::Sample,
            why: FormFault::Space,
        },
        3,
        "weave: sample: colour space\n",
    ),
    (
        Fault::Form {
            file: FileOf::Sample,
            why: FormFault::Cell,
        },
        3,
        "weave: sample: cell\n",
    ),
    (
        Fault::Form {
            file: FileOf::Sample,
            why: FormFault::NoFrames,
        },
        3,
        "weave: sample: no frames\n",
    ),
    (
        Fault::Form {
            file: FileOf::Sample,
            why: FormFault::Sample(11),
        },
        3,
        "weave: sample: value at 11\n",
    ),
    (
        Fault::Form {
            file: FileOf::Sample,
            why: FormFault::Trailing(17),
        },
        3,
        "weave: sample: trailing at 17\n",
    ),
    (
        Fault::Limit {
            what: What::Axis,
            number: 18446744073709551615,
            bound: 4096,
        },
        4,
        "weave: limit axis 18446744073709551615 over 4096\n",
    ),
    (
        Fault::Limit {
            what: What::Cells,
            number: 8388609,
            bound: 8388608,
        },
        4,
        "weave: limit cells 8388609 over 8388608\n",
    ),
    (
        Fault::Limit {
            what: What::Header,
            number: 65537,
            bound: 65536,
        },
        4,
        "weave: limit header 65537 over 65536\n",
    ),
    (
        Fault::Limit {
            what: What::Frames,
            number: 2,
            bound: 1,
        },
        4,
        "weave: limit frames 2 over 1\n",
    ),
    (
        Fault::Limit {
            what: What::Output,
            number: 1049600,
            bound: 1048576,
        },
        4,
        "weave: limit output 1049600 over 1048576\n",
    ),
    (
        Fault::Limit {
            what: What::Loop,
            number: 4097,
            bound: 4096,
        },
        4,
        "weave: limit loop 4097 over 4096\n",
    ),
    (
        Fault::Limit {
            what: What::Records,
            number: 33554433,
            bound: 33554432,
        },
        4,
        "weave: limit records 33554433 over 33554432\n",
    ),
    (
        Fault::Read(FileOf::Sample),
        5,
        "weave: sample: read fault\n",
    ),
    (
        Fault::Read(FileOf::Record),
        5,
        "weave: record: read fault\n",
    ),
    (Fault::Write(FileOf::Out), 6, "weave: out: write fault\n"),
    (Fault::Write(FileOf::Map), 6, "weave: map: write fault\n"),
    (
        Fault::Write(FileOf::Record),
        6,
        "weave: record: write fault\n",
    ),
    (
        Fault::Write(FileOf::Report),
        6,
        "weave: report: write fault\n",
    ),
    (Fault::NoMemory, 7, "weave: no memory\n"),
    (Fault::NoLoop(2), 8, "weave: no loop of length 2\n"),
    (
        Fault::NoLoop(4294967295),
        8,
        "weave: no loop of length 4294967295\n",
    ),
];

// Whether this text is said of a fault, in full or where the sink fails.
fn is_said(fault: &Fault, sink: &mut MemSink, text: &str, well: bool) -> bool {
    say_fault(fault, sink).is_ok() == well && sink.bytes() == text.as_bytes()
}

fn has_line(alloc: Global, fault: &Fault, line: &str) -> bool {
    let mut sink = MemSink::new(alloc);
    is_said(fault, &mut sink, line, true)
}

// The number of the first fault, from 0, that has another status or another line.
fn wrong_line(alloc: Global) -> Option<usize> {
    for (i, (fault, number, line)) in LINES.iter().enumerate() {
        if !has_line(alloc, fault, line) || status(fault) != *number {
            return Some(i);
        }
    }
    None
}

const SUMMARY: Summary = Summary::Grow {
    size: Size { w: 3, h: 2, f: 1 },
    placements: 6,
    rounds: 0,
    seams: 10710,
};

const REPORT: &[u8] = b"grow 3x2x1\nplacements 6\nrounds 0\nseams 10710\n";

fn is_reported(alloc: Global) -> bool {
    let mut sink = MemSink::new(alloc);
    let is_ok = report(&SUMMARY, &mut sink).is_ok();
    is_ok & (sink.bytes() == REPORT)
}

const REPEATED: Fault = Fault::Words(WordFault::Repeated(3));

// A sink that fails in mid-line has a prefix of the line, and the call reports it.
fn is_prefix(alloc: Global) -> Result<bool, AllocError> {
    let mut sink = MemSink::new(alloc);
    sink.fail_at(4, 3)?;
    let is_told = is_said(&REPEATED, &mut sink, "weave: word 3: rep", false);
    Ok(is_told & (sink.faults() == 1))
}

#[test]
fn lines(rt: HostRuntime) {
    let alloc = rt.alloc();
    expect_none(&rt, Ok(wrong_line(alloc)));
    expect_true(&rt, Ok(is_reported(alloc)));
    expect_true(&rt, is_prefix(alloc));
}

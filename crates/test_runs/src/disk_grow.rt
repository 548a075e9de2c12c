// A run of `grow` over files of the system: two cells of a sample become three.
use std::alloc::AllocError;
use std::fs;
use system_calls::System;
use system_files::{ErrorOutput, Output, RealShelf, Unknown};
use test_stage::ran;

/// Two cells of grey 10 and 20 side by side.
pub const SAMPLE: &[u8] = b"P6\n2 1\n255\n\x0a\x0a\x0a\x14\x14\x14";

/// The first and the second of them on 3 x 1 cells.
pub const PICTURE: &[u8] = b"P6\n3 1\n255\n\x0a\x0a\x0a\x14\x14\x14\x0a\x0a\x0a";

/// The map of that picture.
pub const MAP: &[u8] = b"WEAVEMAP\x01\x00\
\x00\x00\x00\x03\x00\x00\x00\x01\x00\x00\x00\x01\
\x00\x00\x00\x02\x00\x00\x00\x01\x00\x00\x00\x01\
\x00\x00\x00\x00\x00\x00\x00\x01\x00\x00\x00\x00\x00\x00\x00\x00\x00\x00";

/// The record of that picture.
pub const RECORD: &[u8] = b"WEAVEREC\x01\x00\
\x00\x00\x00\x03\x00\x00\x00\x01\x00\x00\x00\x01\
\x00\x00\x00\x02\x00\x00\x00\x01\x00\x00\x00\x01\
\x00\x00\x00\x02\
\x00\x00\x00\x00\x00\x00\x00\x02\x00\x01\x00\x01\x00\x00\x00\x00\x00\x00\xc0\x00\x00\x00\x00\
\x00\x02\x00\x00\x00\x00\x00\x01\x00\x01\x00\x01\x00\x00\x00\x00\x00\x00\x80";

/// Names of a run's outputs: its picture, map and record.
pub type Outputs<'a> = (&'a str, &'a str, &'a str);

/// Whether a file has these bytes.
pub fn has_bytes(rt: &HostRuntime, path: &str, wanted: &[u8]) -> bool {
    match fs::read(rt, path) {
        Ok(bytes) => bytes.as_slice() == wanted,
        Err(_) => false,
    }
}

// The status of a run over files of the system.
fn status_of(rt: &HostRuntime, line: &str) -> Result<u8, AllocError> {
    let mut out = Output::<Unknown>::new(rt.stdout());
    let mut err = ErrorOutput::<Unknown>::new(rt.stderr());
    let mut shelf = RealShelf::<Unknown>::new(System::new(*rt), rt.alloc())?;
    let status = ran(rt.alloc(), line, &mut shelf, &mut out, &mut err);
    drop(shelf);
    status
}

/// Whether a run ends with this status, and leaves the first so many of its outputs whole and no other. The file `s`
/// has to be the sample, whatever name of it the run has.
pub fn grows(
    rt: &HostRuntime,
    sample: &str,
    outputs: Outputs<'_>,
    status: u8,
    whole: usize,
) -> bool {
    let (out, map, record) = outputs;
    let Ok(line) = format!(in rt.alloc();
        "grow width=3 height=1 place=grid overlap=0 sample={sample} out={out} map={map} record={record}"
    ) else {
        return false;
    };
    let has_ended = matches!(status_of(rt, line.as_str()), Ok(found) if found == status);
    drop(line);
    let is_drawn = has_bytes(rt, out, PICTURE) == (whole > 0);
    let is_mapped = has_bytes(rt, map, MAP) == (whole > 1);
    let is_recorded = has_bytes(rt, record, RECORD) == (whole > 2);
    has_ended & is_drawn & is_mapped & is_recorded & has_bytes(rt, "s", SAMPLE)
}

// Reading the stream line of a clip.
ghost use Rattle.std.specs.Prelude.{◌≡◌, ◌≤◌, ◌<◌, ◌+◌, ◌++◌, length, IfOk, OnOk, []};
ghost use Rattle.shelf_traits.specs.Files.{OnlyReadsFile};
ghost use Rattle.y4m_clip.specs.Scanning.{IsSoundLine};
ghost use Rattle.y4m_clip.specs.Reading.{Matches, IsStreamScanned, flushed, gathered, line_limit, line_judged, AreTags, LinesAs};

use crate::form::Tags;
use crate::scan::{LineKind, ScannedLine, classify, scan_line};
use items::Items;
use limits::MOST_LINE_BYTES;
use shelf_traits::{FormFault, ReadError, Shelf, What};
use std::alloc::{AllocError, Global};

/// The most bytes of a line, and one more.
pub const LINE_ROOM: usize = MOST_LINE_BYTES as usize + 1;

/// The tags of a stream line, and its length in bytes.
#[derive(Drop)]
pub struct Line {
    pub tags: Tags,
    pub length: u64,
}

/// How many bytes of a text are those of a word.
pub fn matched(text: &[u8], word: &[u8]) -> usize
    ensures { Matches text.now word.now result }
{
    let mut n = 0;
    'matching: while n < text.len() && n < word.len() && text[n] == word[n] {
        n += 1;
    }
    n
}

// Scans the front of a file.
fn scan_stream(text: &[u8]) -> ScannedLine
    ensures scanned { IsStreamScanned text.now result }
    ensures sound { IsSoundLine (length text.now) result }
{
    let n = matched(text, b"YUV4MPEG2");
    if n < 9 {
        return if n < text.len() {
            ScannedLine::Broken(n)
        } else {
            ScannedLine::Open
        };
    }
    match scan_line(&text[9..]) {
        ScannedLine::Open => ScannedLine::Open,
        ScannedLine::Broken(i) => ScannedLine::Broken(9 + i),
        ScannedLine::Ended(n) => ScannedLine::Ended(9 + n),
    }
}

// The refusal of a line that is too long.
pub fn too_long() -> ReadError
    ensures { result ≡ line_limit }
{
    ReadError::Limit {
        what: What::Header,
        number: MOST_LINE_BYTES + 1,
        bound: MOST_LINE_BYTES,
    }
}

// The length of the line, or its refusal, where `count` bytes were scanned.
fn judge(scanned: ScannedLine, count: usize) -> Result<usize, ReadError>
    ensures { result ≡ line_judged count scanned }
{
    match scanned {
        ScannedLine::Open => if count as u64 > MOST_LINE_BYTES {
            Err(too_long())
        } else {
            Err(ReadError::Bad(FormFault::Form(count as u64)))
        },
        ScannedLine::Broken(i) => Err(ReadError::Bad(FormFault::Form(i as u64))),
        ScannedLine::Ended(n) => if n as u64 > MOST_LINE_BYTES {
            Err(too_long())
        } else {
            Ok(n)
        },
    }
}

// Puts a word after the tags, where it isn't empty.
fn flush(tags: &mut Vec<Items<u8>>, word: Vec<u8>) -> Result<(), AllocError>
    ensures { OnOk result (tags.new.items ≡ tags.old.items ++ flushed word.items []) }
{
    if !word.is_empty() {
        tags.push(Items::from_vec(word))?;
    }
    Ok(())
}

// The tags of what comes after the magic of a stream line.
fn gather_all(alloc: Global, text: &[u8]) -> Result<Vec<Items<u8>>, AllocError>
    ensures { IfOk result (λ tags. tags.items ≡ gathered [] text.now) }
{
    let mut tags = Vec::new(alloc);
    let mut word = Vec::new(alloc);
    for byte in text {
        match classify(*byte) {
            LineKind::Ink => word.push(*byte)?,
            _ => {
                flush(&mut tags, word)?;
                word = Vec::new(alloc);
            }
        }
    }
    flush(&mut tags, word)?;
    Ok(tags)
}

/// Reads the stream line of the named file.
pub fn read_line<S: Shelf>(alloc: Global, shelf: &mut S, name: &str) -> Result<Line, ReadError>
    ensures line { LinesAs name.now (S.state shelf.old) (S.state shelf.new) result }
    ensures short { IfOk result (λ line. line.length ≤ MOST_LINE_BYTES) }
    ensures tags { IfOk result (λ line. AreTags line.tags) }
    ensures reads { OnlyReadsFile name.now (S.state shelf.old) (S.state shelf.new) }
{
    let mut buffer = [0u8; LINE_ROOM];
    let count = shelf.get(name, 0, &mut buffer)?;
    let length = judge(scan_stream(&buffer[..count]), count)?;
    let tags = gather_all(alloc, &buffer[9..length])?;
    Ok(Line {
        tags: Items::from_vec(tags),
        length: length as u64,
    })
}

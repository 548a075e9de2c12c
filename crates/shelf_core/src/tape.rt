// Files one after another in one buffer, whose memory is taken when it is made.
//
// Each file is kept as its name and then its bytes; a span has the lengths of both. A write moves
// the bytes after it, and takes no memory.
ghost use Rattle.std.specs.Prelude.{◌≡◌, ◌+◌, ◌^◌, ◌<◌, ◌≤◌, ◌++◌, [], ◌∷◌, IfOk, None, position, length, take, drop, vec_len, vec_capacity, slice_index_or, slice_set};
ghost use Rattle.shelf_core.specs.Tapes.{has_name, no_span, cut, spent, spanned};

use std::alloc::{AllocError, Global};
use std::marker::Model;

/// The lengths of a file's name and of its bytes.
#[derive(Clone, Copy)]
pub struct TapeSpan {
    pub name: usize,
    pub bytes: usize,
}

/// Files, each a name and its bytes, in the order in which they came.
#[derive(Drop)]
pub struct Tape {
    room: usize,
    bytes: Vec<u8>,
    spans: Vec<TapeSpan>,
}

impl Model for Tape {
    ghost use Rattle.std.specs.Prelude.{vec_capacity};
    ghost use Rattle.shelf_core.specs.Tapes.{TapeState, CoversBytes, cut};

    ghost Value = { TapeState };

    ghost view = { λ t. record { room = t.room; files = cut t.spans.items t.bytes.items } };

    ghost invariant = { λ t. CoversBytes t.room t.spans.items t.bytes.items (vec_capacity t.bytes)
        (vec_capacity t.spans) };
}

// How many bytes come before file i.
fn start_of(spans: &[TapeSpan], i: usize) -> usize
    requires within { i ≤ length spans.now }
    requires fits { spanned spans.now < 2 ^ 64 }
    ensures { result ≡ spanned (take i spans.now) }
{
    let before = &spans[..i];
    let mut start = 0;
    for span in before {
        start += span.name + span.bytes;
    }
    start
}

// Where the bytes of a file are in the buffer, and how many they are.
#[derive(Clone, Copy)]
struct Place {
    start: usize,
    len: usize,
}

// The place of the bytes of file i.
fn place_of(spans: &[TapeSpan], i: usize) -> Place
    requires within { i < length spans.now }
    requires fits { spanned spans.now < 2 ^ 64 }
    ensures start { result.start ≡ spanned (take i spans.now) +
        (slice_index_or spans.now i no_span).name }
    ensures len { result.len ≡ (slice_index_or spans.now i no_span).bytes }
    ensures within { result.start + result.len ≤ spanned spans.now }
{
    let span = spans[i];
    Place {
        start: start_of(spans, i) + span.name,
        len: span.bytes,
    }
}

// Which file has the name.
fn find(spans: &[TapeSpan], bytes: &[u8], name: &[u8]) -> Option<usize>
    requires { spanned spans.now ≡ length bytes.now }
    ensures { result ≡ position (has_name name.now) (cut spans.now bytes.now) }
{
    let mut start = 0;
    for (i, span) in spans.iter().enumerate() {
        let own = &bytes[start..start + span.name];
        if own == name {
            return Some(i);
        }
        start += span.name + span.bytes;
    }
    None
}

// Puts a piece after all, where the capacity has room for it, so that no memory is asked for.
fn put_behind(bytes: &mut Vec<u8>, piece: &[u8])
    requires { vec_len bytes.old + length piece.now ≤ vec_capacity bytes.old }
    ensures items { bytes.new.items ≡ bytes.old.items ++ piece.now }
    ensures capacity { vec_capacity bytes.old ≤ vec_capacity bytes.new }
{
    let _ = bytes.extend_from_slice(piece);
}

// Puts a piece in at a place, where the capacity has room for it.
fn put_in(bytes: &mut Vec<u8>, at: usize, piece: &[u8])
    requires within { at ≤ vec_len bytes.old }
    requires room { vec_len bytes.old + length piece.now ≤ vec_capacity bytes.old }
    ensures items { bytes.new.items ≡ take at bytes.old.items
        ++ (piece.now ++ drop at bytes.old.items) }
    ensures capacity { vec_capacity bytes.old ≤ vec_capacity bytes.new }
{
    put_behind(bytes, piece);
    bytes[at..].rotate_right(piece.len());
}

// Takes n bytes out at a place.
fn take_out(bytes: &mut Vec<u8>, at: usize, n: usize)
    requires within { at + n ≤ vec_len bytes.old }
    ensures items { bytes.new.items ≡ take at bytes.old.items ++ drop (at + n) bytes.old.items }
    ensures capacity { vec_capacity bytes.new ≡ vec_capacity bytes.old }
{
    bytes[at..].rotate_left(n);
    let left = bytes.len() - n;
    bytes.truncate(left);
}

impl Tape {
    // No file, and memory for so many bytes of names and files. The names differ, so that at most
    // one is empty, and there is at most one file more than bytes.
    pub fn make(alloc: Global, room: usize) -> Result<Tape, AllocError>
        ensures { IfOk result (λ tape. tape ≡ record { room = room; files = [] }) }
    {
        let Some(marks) = room.checked_add(1) else {
            return Err(AllocError);
        };
        let bytes = Vec::with_capacity(alloc, room)?;
        let spans = Vec::with_capacity(alloc, marks)?;
        Ok(Tape { room, bytes, spans })
    }

    // How many bytes there is room for yet.
    pub fn free(&self) -> usize
        ensures { result + spent self.now.files ≡ self.now.room }
    {
        self.room - self.bytes.len()
    }

    // Which file has the name.
    pub fn find(&self, name: &[u8]) -> Option<usize>
        ensures { result ≡ position (has_name name.now) self.now.files }
    {
        find(&self.spans, &self.bytes, name)
    }

    // The bytes of a file.
    pub fn content(&self, i: usize) -> &[u8]
        requires { i < length self.now.files }
        ensures { result.now ≡ (slice_index_or self.now.files i ([], [])).1 }
    {
        let own = place_of(&self.spans, i);
        &self.bytes[own.start..own.start + own.len]
    }

    // Leaves a file with no byte.
    pub fn clear(&mut self, i: usize)
        requires { i < length self.old.files }
        ensures { self.new ≡ record self.old {
          files =
              slice_set self.old.files i ((slice_index_or self.old.files i ([], [])).0, []);
        } }
    {
        let own = place_of(&self.spans, i);
        take_out(&mut self.bytes, own.start, own.len);
        self.spans[i].bytes = 0;
    }

    // Puts a piece that there is room for after the bytes of a file.
    pub fn append(&mut self, i: usize, piece: &[u8])
        requires within { i < length self.old.files }
        requires fits { spent self.old.files + length piece.now ≤ self.old.room }
        ensures { self.new ≡ record self.old {
          files =
              slice_set self.old.files i (
                (slice_index_or self.old.files i ([], [])).0,
                (slice_index_or self.old.files i ([], [])).1 ++ piece.now,
              );
        } }
    {
        let own = place_of(&self.spans, i);
        put_in(&mut self.bytes, own.start + own.len, piece);
        self.spans[i].bytes += piece.len();
    }

    // Puts a file with no byte after all, whose name is new and has room.
    pub fn push(&mut self, name: &[u8]) -> usize
        requires new { position (has_name name.now) self.old.files ≡ None }
        requires fits { spent self.old.files + length name.now ≤ self.old.room }
        ensures place { result ≡ length self.old.files }
        ensures files { self.new ≡ record self.old {
          files = self.old.files
              ++ (name.now, []) ∷ [];
        } }
    {
        let i = self.spans.len();
        put_behind(&mut self.bytes, name);
        self.spans.push_reserved(TapeSpan {
            name: name.len(),
            bytes: 0,
        });
        i
    }
}

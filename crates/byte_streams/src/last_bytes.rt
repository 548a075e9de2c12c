// The last bytes of what was read.
ghost use Rattle.std.specs.Prelude.{◌≡◌, ◌≤◌, ◌+◌, ◌-◌, ◌++◌, take, drop, length, vec_len, vec_capacity};
ghost use Rattle.byte_streams.specs.Tails.{copied_count, tail_of};

use std::alloc::{AllocError, Global};
use std::marker::Model;

/// The last bytes of what was read, `ROOM` of them at most. Its memory is taken when it is made.
#[derive(Drop)]
pub struct LastBytes<const ROOM: usize> {
    bytes: Vec<u8>,
}

impl<const ROOM: usize> Model for LastBytes<ROOM> {
    ghost use Rattle.std.specs.Prelude.{◌≤◌, ℕ, List, vec_len, vec_capacity};

    ghost Value = { List ℕ };

    ghost view = { λ a. a.bytes.items };

    ghost invariant = { λ a. (vec_len a.bytes ≤ ROOM) × (ROOM ≤ vec_capacity a.bytes) };
}

// Drops the first bytes; the memory stays.
fn drop_front(bytes: &mut Vec<u8>, from: usize)
    requires { from ≤ vec_len bytes.old }
    ensures items { bytes.new.items ≡ drop from bytes.old.items }
    ensures capacity { vec_capacity bytes.new ≡ vec_capacity bytes.old }
{
    let left = bytes.len() - from;
    bytes.copy_within(from.., 0);
    bytes.truncate(left);
}

// Adds bytes for which there is room.
fn extend_within(bytes: &mut Vec<u8>, more: &[u8])
    requires { vec_len bytes.old + length more.now ≤ vec_capacity bytes.old }
    ensures items { bytes.new.items ≡ bytes.old.items ++ more.now }
    ensures capacity { vec_capacity bytes.old ≤ vec_capacity bytes.new }
{
    match bytes.extend_from_slice(more) {
        Ok(()) => {}
        Err(_) => unreachable!(),
    }
}

// The last bytes of both.
fn join_ends(bytes: &mut Vec<u8>, room: usize, read: &[u8])
    requires within { vec_len bytes.old ≤ room }
    requires taken { room ≤ vec_capacity bytes.old }
    ensures items { bytes.new.items ≡ tail_of room (bytes.old.items ++ read.now) }
    ensures capacity { vec_capacity bytes.old ≤ vec_capacity bytes.new }
{
    let n = read.len().min(room);
    let old = bytes.len().min(room - n);
    drop_front(bytes, bytes.len() - old);
    extend_within(bytes, &read[read.len() - n..]);
}

impl<const ROOM: usize> LastBytes<ROOM> {
    ghost use Rattle.std.specs.Prelude.{◌≡◌, ◌≤◌, ◌++◌, ◌-◌, [], take, drop, length, IfOk};

    /// None kept. The one error is out of memory.
    pub fn none(alloc: Global) -> Result<Self, AllocError>
        ensures { IfOk result (λ last. last ≡ []) }
    {
        let bytes = Vec::with_capacity(alloc, ROOM)?;
        Ok(LastBytes { bytes })
    }

    /// Keeps none of them any longer.
    pub fn clear(&mut self)
        ensures { self.new ≡ [] }
    {
        self.bytes.truncate(0);
    }

    /// Keeps the end of what was kept and of what was read right after it.
    pub fn keep_end(&mut self, read: &[u8])
        ensures { self.new ≡ tail_of ROOM (self.old ++ read.now) }
    {
        join_ends(&mut self.bytes, ROOM, read);
    }

    /// Copies what is kept from so many bytes before its end on, as much as there is room for; nothing
    /// where it doesn't reach so far back.
    pub fn copy_kept(&self, back: u64, into: &mut [u8]) -> usize
        ensures count { result ≡ copied_count back (length self.now) (length into.old) }
        ensures bytes { take result into.new ≡
            take result (drop (length self.now - back) self.now) }
    {
        let kept = self.bytes.as_slice();
        if back > kept.len() as u64 {
            return 0;
        }
        let start = kept.len() - back as usize;
        let n = (kept.len() - start).min(into.len());
        into[..n].copy_from_slice(&kept[start..start + n]);
        n
    }
}

// A sink in memory that never fails.
ghost use Rattle.std.specs.Prelude.{◌≡◌, ◌≤◌, ◌++◌, [], Some, IfOk, IsOk, OnOk, option_copied};
ghost use Rattle.shelf_traits.specs.Files.{Told};
ghost use Rattle.shelf_core.specs.SureStates.{sure_sink_state, after_piece};

use shelf_traits::{Failed, Sink};
use std::alloc::{AllocError, Global};
use std::marker::Model;

/// Bytes in memory that is taken when the sink is made. It never fails and takes no memory
/// afterwards; from the first piece on that doesn't fit in the room it tells nothing.
#[derive(Drop)]
pub struct SureSink {
    room: usize,
    bytes: Vec<u8>,
    told: bool,
}

impl Model for SureSink {
    ghost use Rattle.std.specs.Prelude.{◌≤◌, Some, None, length, vec_capacity, if◌then◌else◌};
    ghost use Rattle.shelf_core.specs.SureStates.{SureSinkState};

    ghost Value = { SureSinkState };

    ghost view = { λ s. record {
      room = s.room;
      bytes =
          (if s.told then Some s.bytes.items else None);
    } };

    ghost invariant = { λ s. (length s.bytes.items ≤ s.room) × (s.room ≤ vec_capacity s.bytes) };
}

impl SureSink {
    /// No byte, and memory for so many.
    pub fn make(alloc: Global, room: usize) -> Result<SureSink, AllocError>
        ensures { IfOk result (λ sink. sink ≡ record { room = room; bytes = Some [] }) }
    {
        let bytes = Vec::with_capacity(alloc, room)?;
        Ok(SureSink {
            room,
            bytes,
            told: true,
        })
    }

    /// The bytes written; None after a piece that didn't fit.
    pub fn bytes(&self) -> Option<&[u8]>
        ensures { option_copied result ≡ self.now.bytes }
    {
        if self.told {
            Some(self.bytes.as_slice())
        } else {
            None
        }
    }
}

impl Sink for SureSink {
    ghost state = { sure_sink_state };

    fn add(&mut self, piece: &[u8]) -> Result<(), Failed>
        ensures added { OnOk result (Told self.old.bytes self.new.bytes
            (λ was now. now ≡ was ++ piece.now)) }
        ensures sure { IsOk result }
        ensures after { self.new ≡ after_piece self.old piece.now }
    {
        if piece.len() <= self.room - self.bytes.len() {
            let _ = self.bytes.extend_from_slice(piece);
        } else {
            self.told = false;
        }
        Ok(())
    }
}

// A sink in memory, which always tells its bytes.
ghost use Rattle.std.specs.Prelude.{◌≡◌, ◌≤◌, ◌++◌, [], ◌∷◌, OnOk, OnErr, IsErr, IsSome};
ghost use Rattle.shelf_core.specs.Listings.{due, one_more};
ghost use Rattle.shelf_traits.specs.Files.{Told, Rose, IsPrefixAdded};
ghost use Rattle.shelf_core.specs.MemStates.{mem_sink_state, told_whole, untold, SinkKeptBy};

use crate::bytes::Bytes;
use crate::listing::{Call, Listing, Listings, raised};
use crate::pieces::front_of;
use shelf_traits::{Failed, Sink};
use std::alloc::{AllocError, Global};
use std::marker::Model;

/// Bytes in memory. Calls of `add` can be listed to fail. A listed call and a refused growth fail,
/// and no other call.
#[derive(Drop)]
pub struct MemSink {
    alloc: Global,
    bytes: Bytes,
    listings: Listings,
    faults: u64,
}

impl Model for MemSink {
    ghost use Rattle.shelf_core.specs.MemStates.{MemSinkState};

    ghost Value = { MemSinkState };

    ghost view = { λ a. record { bytes = a.bytes; listings = a.listings; faults = a.faults } };
}

impl MemSink {
    /// No byte, no listing and no fault.
    pub fn new(alloc: Global) -> MemSink
        ensures { result ≡ record { bytes = []; listings = []; faults = 0 } }
    {
        MemSink {
            alloc,
            bytes: Bytes::new(alloc),
            listings: Listings::new(alloc),
            faults: 0,
        }
    }

    /// Lists that the `nth` call of `add` from now on fails, counted from 1, and appends the first
    /// `kept` bytes of its piece. Where two listings name one call, the earlier one's `kept` holds.
    pub fn fail_at(&mut self, nth: u32, kept: usize) -> Result<(), AllocError>
        requires { 1 ≤ nth }
        ensures ok { OnOk result (self.new ≡
            record self.old {
              listings = self.old.listings
                  ++ (record { call = Call.Add; name = []; nth = nth; kept = kept }) ∷ [];
            }) }
        ensures err { OnErr result (self.new ≡ self.old) }
    {
        self.listings.push(Listing {
            call: Call::Add,
            name: Bytes::new(self.alloc),
            nth,
            kept,
        })
    }

    /// The bytes written.
    pub fn bytes(&self) -> &[u8]
        ensures { result.now ≡ self.now.bytes }
    {
        self.bytes.as_slice()
    }

    /// How many writes have failed.
    pub fn faults(&self) -> u64
        ensures { result ≡ self.now.faults }
    {
        self.faults
    }

    // One more write has failed.
    fn fail_write(&mut self) -> Failed
        ensures one { self.new ≡ record self.old { faults = one_more self.old.faults } }
        ensures rose { Rose self.old.faults self.new.faults }
        ensures no_less { self.old.faults ≤ self.new.faults }
    {
        self.faults = raised(self.faults);
        Failed
    }
}

impl Sink for MemSink {
    ghost state = { mem_sink_state };

    fn add(&mut self, piece: &[u8]) -> Result<(), Failed>
        ensures added { OnOk result (Told (mem_sink_state self.old).bytes
            (mem_sink_state self.new).bytes (λ was now. now ≡ was ++ piece.now)) }
        ensures part { OnErr result (Told (mem_sink_state self.old).bytes
            (mem_sink_state self.new).bytes (λ was now. IsPrefixAdded was piece.now now)) }
        ensures counted { self.old.faults ≤ self.new.faults }
        ensures failed { OnErr result (Rose self.old.faults self.new.faults) }
        ensures listed { IsSome (due Call.Add [] self.old.listings) → IsErr result }
        ensures ok { OnOk result (self.new ≡ told_whole piece.now self.old) }
        ensures kept { OnErr result (SinkKeptBy
            (due Call.Add [] self.old.listings) self.old.bytes piece.now self.new.bytes) }
        ensures err { OnErr result (self.new ≡ untold self.old self.new.bytes) }
    {
        if let Some(kept) = self.listings.pass(Call::Add, &[]) {
            let _ = self.bytes.extend(front_of(piece, kept));
            return Err(self.fail_write());
        }
        let Ok(()) = self.bytes.extend(piece) else {
            return Err(self.fail_write());
        };
        Ok(())
    }
}

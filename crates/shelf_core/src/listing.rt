// Calls that a store in memory is to fail.
ghost use Rattle.std.specs.Prelude.{◌≡◌, ◌≤◌, ◌++◌, [], ◌∷◌, OnOk, OnErr};
ghost use Rattle.shelf_traits.specs.Files.{Rose};
ghost use Rattle.shelf_core.specs.Listings.{due, one_call_less, after_call, is_about, is_due, one_more};

use crate::bytes::Bytes;
use std::alloc::{AllocError, Global};
use std::marker::Model;

/// The kinds of calls of a shelf.
#[derive(Clone, Copy, Drop)]
pub enum Call {
    Get,
    Begin,
    Add,
}

/// The `nth` call from now on, of one kind on one name, fails and keeps so many bytes.
#[derive(Drop)]
pub struct Listing {
    pub call: Call,
    pub name: Bytes,
    pub nth: u32,
    pub kept: usize,
}

/// Listings in the order in which they were made.
#[derive(Drop)]
pub struct Listings {
    listings: Vec<Listing>,
}

impl Model for Listings {
    ghost use Rattle.std.specs.Prelude.{List};
    ghost use Rattle.shelf_core.specs.declared.listing.Listing.{Listing};

    ghost Value = { List Listing };

    ghost view = { λ a. a.listings.items };
}

// The listing is about calls of this kind on this name.
fn is_listed(listing: &Listing, call: Call, name: &[u8]) -> bool
    ensures { result ≡ is_about call name.now listing.now }
{
    listing.call == call && listing.name.as_slice() == name
}

// The listing names the next call of this kind on this name.
fn is_next(listing: &Listing, call: Call, name: &[u8]) -> bool
    ensures { result ≡ is_due call name.now listing.now }
{
    is_listed(listing, call, name) && listing.nth == 1
}

// How many bytes the next call keeps, where it is listed.
fn kept_by(listings: &[Listing], call: Call, name: &[u8]) -> Option<usize>
    ensures { result ≡ due call name.now listings.now }
{
    let listing = listings
        .iter()
        .find(|listing| is_next(listing, call, name))?;
    Some(listing.kept)
}

// Counts one more call in one listing.
fn count_one(listing: &mut Listing, call: Call, name: &[u8])
    ensures { listing.new ≡ one_call_less call name.now listing.old }
{
    if is_listed(listing, call, name) {
        listing.nth = listing.nth.saturating_sub(1);
    }
}

// Counts one more call in each listing.
fn count(listings: &mut [Listing], call: Call, name: &[u8])
    ensures { listings.new ≡ after_call call name.now listings.old }
{
    for listing in listings.iter_mut() {
        count_one(listing, call, name);
    }
}

impl Listings {
    pub fn new(alloc: Global) -> Listings
        ensures { result ≡ [] }
    {
        Listings {
            listings: Vec::new(alloc),
        }
    }

    pub fn push(&mut self, listing: Listing) -> Result<(), AllocError>
        ensures ok { OnOk result (self.new ≡ self.old ++ listing ∷ []) }
        ensures err { OnErr result (self.new ≡ self.old) }
    {
        self.listings.push(listing)?;
        Ok(())
    }

    // One more call: how many bytes it keeps where it is to fail.
    pub fn pass(&mut self, call: Call, name: &[u8]) -> Option<usize>
        ensures kept { result ≡ due call name.now self.old }
        ensures after { self.new ≡ after_call call name.now self.old }
    {
        let kept = kept_by(&self.listings, call, name);
        count(&mut self.listings, call, name);
        kept
    }
}

// A count one higher, or as it is at its last value.
pub fn raised(count: u64) -> u64
    ensures one { result ≡ one_more count }
    ensures rose { Rose count result }
    ensures no_less { count ≤ result }
{
    count.saturating_add(1)
}

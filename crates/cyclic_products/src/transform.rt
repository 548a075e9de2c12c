// The transform with its tables: what the crate is for.
ghost use Rattle.std.specs.Prelude.{◌≡◌, ◌≤◌, ◌<◌, ◌%◌, ◌^◌, List, ℕ, IfOk, length, map};
ghost use Rattle.cyclic_products.specs.Products.{cyclic};
ghost use Rattle.cyclic_products.specs.Residues.{mix};
ghost use Rattle.cyclic_products.specs.Splits.{AreImages};

use crate::passes::{add, multiply, reduce};
use crate::residues::{HALF, LAST, PRIME};
use crate::splits::{join, split};
use crate::tables::{INVERSES, ROOTS, table};
use std::alloc::{AllocError, Global};
use std::marker::Model;

/// The most levels of a transform: it is of 2^25 numbers at most.
pub const MOST_LEVELS: u32 = 25;

/// A transform of 2^levels numbers, with its tables. They take 8 bytes a number.
#[derive(Drop)]
pub struct Transform {
    levels: u32,
    // roots of one, of which each level takes the first ones
    roots: Vec<u64>,
    // a half of one over each of them
    halves: Vec<u64>,
}

impl Model for Transform {
    ghost use Rattle.cyclic_products.specs.Splits.{AreTables, Tables};
    ghost use Rattle.cyclic_products.specs.declared.residues.TheConstants.{LAST};

    ghost Value = { Tables };

    ghost view = { λ a. record { levels = a.levels; roots = a.roots.items; halves = a.halves.items } };

    ghost invariant = { λ a. AreTables LAST (record {
      levels = a.levels;
      roots = a.roots.items;
      halves = a.halves.items;
    }) };
}

impl Transform {
    /// The transform of 2^levels numbers. The one error is out of memory.
    pub fn make(alloc: Global, levels: u32) -> Result<Transform, AllocError>
        requires some { 1 ≤ levels }
        requires few { levels ≤ MOST_LEVELS }
        ensures { IfOk result (λ transform. transform.levels ≡ levels) }
    {
        let roots = table(alloc, levels - 1, 1, &ROOTS)?;
        let halves = table(alloc, levels - 1, HALF, &INVERSES)?;
        Ok(Transform {
            levels,
            roots,
            halves,
        })
    }

    /// Puts the images of a list in its place. The numbers may be any; they count modulo `PRIME`.
    pub fn split(&self, values: &mut [u64])
        requires { length values.old ≡ 2 ^ self.now.levels }
        ensures { AreImages LAST self.now values.old values.new }
    {
        split(self.levels, &self.roots, 0, values);
    }

    /// Multiplies images by those of another list: they become the images of the cyclic product.
    pub fn multiply(&self, images: &mut [u64], others: &[u64])
        requires images { length images.old ≡ 2 ^ self.now.levels }
        requires others { length others.now ≡ 2 ^ self.now.levels }
        ensures { (f g : List ℕ) → AreImages LAST self.now f images.old
            → AreImages LAST self.now g others.now
            → AreImages LAST self.now (cyclic f g) images.new }
    {
        // Read for the prover only: it then knows that these are tables.
        let _levels = self.levels;
        multiply(images, others);
    }

    /// Adds the images of another list: they become those of the sums of both, number by number.
    pub fn add(&self, images: &mut [u64], others: &[u64])
        requires images { length images.old ≡ 2 ^ self.now.levels }
        requires others { length others.now ≡ 2 ^ self.now.levels }
        ensures { (f g : List ℕ) → AreImages LAST self.now f images.old
            → AreImages LAST self.now g others.now
            → AreImages LAST self.now (mix LAST 1 1 f g) images.new }
    {
        // Read for the prover only: it then knows that these are tables.
        let _levels = self.levels;
        add(images, others);
    }

    /// Puts the list whose images these are in their place, modulo `PRIME`.
    pub fn join(&self, images: &mut [u64])
        requires { length images.old ≡ 2 ^ self.now.levels }
        ensures { (of_images : List ℕ) → AreImages LAST self.now of_images images.old
            → images.new ≡ map (λ x. x % PRIME) of_images }
    {
        join(self.levels, &self.halves, 0, images);
        reduce(images);
    }

    /// Puts the cyclic product of two lists, modulo `PRIME`, in the place of the first. Of the second its
    /// images are left.
    pub fn product(&self, f: &mut [u64], g: &mut [u64])
        requires f { length f.old ≡ 2 ^ self.now.levels }
        requires g { length g.old ≡ 2 ^ self.now.levels }
        ensures { f.new ≡ map (λ x. x % PRIME) (cyclic f.old g.old) }
    {
        self.split(f);
        self.split(g);
        self.multiply(f, g);
        self.join(f);
    }
}

//! Cyclic products of lists of 2^k numbers, by a fast transform modulo a prime.
//!
//! The cyclic product of f and g has at k the sum of f_i * g_j over all i and j with i + j = k or
//! i + j = k + n, where n is the length of both (`specs/Products.antt`). It is given modulo `PRIME`, which
//! is 2^64 - 2^32 + 1: where the sum is less than that, it is the sum itself. It takes some n log n products
//! of numbers, where the plain sums take n * n.
//!
//! A list is taken as the coefficients of a polynomial. The transform splits it into its residues modulo
//! polynomials of half the length, level by level (`specs/Splits.antt`): modulo x^n - a^2 it is known from
//! its residues modulo x^(n/2) - a and x^(n/2) + a. What is left are its values at n roots of one, its
//! images. The images of a product are the products of images, and those of a sum are sums, so several
//! products are added up for one way back. The way back joins the residues, level by level.
//! (Cooley and Tukey 1965; modulo a prime, Pollard 1971; by residues of polynomials, Bernstein 2001.)
#![tactic(auto)]

mod fours;
mod passes;
mod residues;
mod splits;
mod tables;
mod transform;

pub use residues::{LAST, PRIME};
pub use transform::{MOST_LEVELS, Transform};

//! The overlap errors of a part of the sample at all its offsets at once, by cyclic products.
//!
//! An overlap error is a sum of squared differences over the filled cells that a part has below it, and so
//! a sum of products: the squares of the output's bytes, those of the sample's where the output is filled,
//! less twice the products of both. `OffsetErrors::gather` takes each of these sums at all offsets as one
//! cyclic product (crate cyclic_products) and gives exactly the errors of match_error (specs/Errors.antt).
//! (Kwatra et al. 2003 take them by a fast Fourier transform; here they are numbers modulo a prime.)
//!
//! `errors` has the sums, `layout` how a box of the output and a part of the sample are laid out in lists,
//! `lists` these lists, `entries` the numbers of their cells.
#![tactic(auto)]

mod entries;
mod errors;
mod layout;
mod lists;

pub use errors::OffsetErrors;
pub use layout::Layout;

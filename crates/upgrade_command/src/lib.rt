//! The command that writes a map and a record of one sample in the form of those of several samples.
//!
//! `upgrade` reads a cell map and cut records of version 1, and writes both in version 2, with one sample.
//! specs/Upgrades.antt has what it reads and refuses and which texts it writes, and specs/Upgraded.antt what
//! holds when it is done: the same map and the same records, of which `check` says the same. `pair` has what
//! was read, and `upgrade` the command.
#![tactic(auto)]

mod pair;
mod upgrading;

pub use pair::Pair;
pub use upgrading::upgrade;

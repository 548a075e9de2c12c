//! `run`, which does all that the program does.
//!
//! `run` promises what each status means and what the files hold after it, from the words to the bytes
//! written. Each command is a value (`command_of` in specs/Engine.antt), over which the crate
//! command has what any run leaves, and its promises. Their crates are grow_command (`trial` too), quilt_command
//! (`transfer` too), loop_command, check_command, upgrade_command, tile_command and merge_command, whose calls are
//! named here again. README.md says what another command brings.
#![tactic(auto)]

mod engine;

pub use check_command::check_files;
pub use engine::run;
pub use grow_command::{grow, trial};
pub use loop_command::loop_clip;
pub use merge_command::merge_pictures;
pub use quilt_command::{quilt_picture, transfer_picture};
pub use tile_command::tile;
pub use upgrade_command::upgrade;

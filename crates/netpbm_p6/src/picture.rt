// A picture.

use cells::Volume;

/// A picture of w x h x 1 cells of 3 bytes each (R, G, B), and the greatest value of a byte, 1 to 255.
#[derive(Drop)]
pub struct Picture {
    pub maxval: u8,
    pub volume: Volume,
}

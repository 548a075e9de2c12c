// Samples, and numbers that look drawn.
ghost use Rattle.std.specs.Prelude.{◌≡◌, ◌≤◌, IfOk};
ghost use Rattle.cells.specs.Places.{IsSmall};
ghost use Rattle.cells.specs.Cells.{IsOnePart};

use cells::{Size, Volume};
use std::alloc::{AllocError, Global};

/// A number that looks drawn, for two others.
pub fn mixed(a: u32, b: u32) -> u32 {
    let mut x = a.wrapping_mul(2654435761) ^ b.wrapping_mul(2246822519);
    x ^= x >> 15;
    x = x.wrapping_mul(739982445);
    x ^= x >> 12;
    x = x.wrapping_mul(695872825);
    x ^ (x >> 15)
}

// The height of a lump's corner, from 0 to 199.
fn corner(x: u32, y: u32, channel: u32) -> u32
    ensures { result ≤ 199 }
{
    mixed(x.wrapping_add(channel.wrapping_mul(77)), y) % 200
}

// Between two numbers, at so many eighths.
fn between(a: u32, b: u32, eighths: u32) -> u32
    requires a { a ≤ 199 }
    requires b { b ≤ 199 }
    ensures { result ≤ 199 }
{
    let sum = a
        .wrapping_mul(8 - eighths % 8)
        .wrapping_add(b.wrapping_mul(eighths % 8));
    (sum / 8) % 200
}

/// What a sample shows.
#[derive(Clone, Copy, Drop)]
pub enum Texture {
    /// Lumps with a little noise on them.
    Lumps,
    /// Bytes that look drawn, each by itself.
    Noise,
    /// Rows and columns of drawn heights, each with its opposite beside it, so that all blocks of two cells on each
    /// axis have one mean: sums of blocks tell nothing of them.
    EqualMeans,
    /// One colour.
    Plain,
    /// The lumps that are 4,096 columns on.
    OtherLumps,
}

// The byte of a channel of a cell of lumps.
fn lump_at(x: u32, y: u32, channel: u32) -> u8 {
    let top = between(
        corner(x / 8, y / 8, channel),
        corner((x / 8).wrapping_add(1), y / 8, channel),
        x % 8,
    );
    let low = between(
        corner(x / 8, (y / 8).wrapping_add(1), channel),
        corner((x / 8).wrapping_add(1), (y / 8).wrapping_add(1), channel),
        x % 8,
    );
    let noise = mixed(x.wrapping_mul(3).wrapping_add(channel), y) % 32;
    (between(top, low, y % 8) + noise) as u8
}

// So much above 128 or below it.
fn beside(is_above: bool, height: u32) -> u32
    requires { height ≤ 120 }
    ensures { result ≤ 248 }
{
    if is_above { 128 + height } else { 128 - height }
}

// The byte of a channel of a cell whose blocks all have one mean.
fn equal_mean_at(x: u32, y: u32, channel: u32) -> u8 {
    let across = mixed(y, channel.wrapping_add(8)) % 60;
    let down = mixed(x, channel.wrapping_add(16)) % 60;
    let (is_right, is_low) = (x % 2 == 1, y % 2 == 1);
    if is_right == is_low {
        beside(is_right, across + down) as u8
    } else if across >= down {
        beside(is_right, across - down) as u8
    } else {
        beside(is_low, down - across) as u8
    }
}

// The byte of a channel of a cell.
fn byte_at(texture: Texture, x: u32, y: u32, channel: u32) -> u8 {
    match texture {
        Texture::Lumps => lump_at(x, y, channel),
        Texture::Noise => (mixed(x.wrapping_mul(3).wrapping_add(channel), y) % 256) as u8,
        Texture::EqualMeans => equal_mean_at(x, y, channel),
        Texture::Plain => 90,
        Texture::OtherLumps => lump_at(x.wrapping_add(4096), y, channel),
    }
}

/// The volume of a size with 3 bytes a cell. The frames of a clip show a texture that moves.
pub fn volume_of(alloc: Global, texture: Texture, size: Size) -> Result<Volume, AllocError>
    requires small { IsSmall size }
    ensures volume { IfOk result (λ v. IsOnePart v × (v.size ≡ size)) }
    ensures samples { IfOk result (λ v. v.k ≡ 3) }
{
    let mut bytes = vec![in alloc; 0u8; 3 * size.cells()]?;
    for i in 0..bytes.len() {
        let cell = (i / 3) as u32;
        let row = cell / size.w;
        let moved = (row / size.h).wrapping_mul(3);
        let x = (cell % size.w).wrapping_add(moved);
        bytes[i] = byte_at(texture, x, row % size.h, (i % 3) as u32);
    }
    Ok(Volume::from_bytes(size, 3, bytes))
}

/// A square picture of a texture, of that side.
pub fn sample_of(alloc: Global, texture: Texture, side: u32) -> Result<Volume, AllocError>
    requires { IsSmall (record { w = side; h = side; f = 1 }) }
    ensures part { IfOk result IsOnePart }
    ensures size { IfOk result (λ v. v.size ≡ record { w = side; h = side; f = 1 }) }
    ensures samples { IfOk result (λ v. v.k ≡ 3) }
{
    volume_of(
        alloc,
        texture,
        Size {
            w: side,
            h: side,
            f: 1,
        },
    )
}

/// A number of bytes.
pub fn sum_of(bytes: &[u8]) -> u32 {
    let mut sum = 0u32;
    for byte in bytes {
        sum = sum.wrapping_mul(31).wrapping_add(u32::from(*byte));
    }
    sum
}

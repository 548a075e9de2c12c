// Parts of bytes that calls read and keep.
ghost use Rattle.std.specs.Prelude.{◌≡◌, ◌≤◌, take, length};
ghost use Rattle.shelf_traits.specs.Files.{Reads};

// The bytes of a file from a place on, as far as the buffer goes.
pub fn copy_out(bytes: &[u8], at: u64, into: &mut [u8]) -> usize
    ensures within { result ≤ length into.old }
    ensures read { Reads bytes.now at into.new result }
{
    let start = if at < bytes.len() as u64 {
        at as usize
    } else {
        bytes.len()
    };
    let n = into.len().min(bytes.len() - start);
    into[..n].copy_from_slice(&bytes[start..start + n]);
    n
}

// The front of a piece that a listed call keeps.
pub fn front_of(piece: &[u8], kept: usize) -> &[u8]
    ensures { result.now ≡ take kept piece.now }
{
    &piece[..kept.min(piece.len())]
}

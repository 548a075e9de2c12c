// A text that is given in pieces, one after another.
ghost use Rattle.synth_report.specs.Telling.{piece_text, joined_texts, TellsText};

use itoa::Buffer;
use shelf_traits::{Sink, WriteFault};

/// A piece of a text: bytes as they are, or a number in decimal.
#[derive(Clone, Copy)]
pub enum Piece<'a> {
    Text(&'a str),
    Number(u64),
    Short(u32),
    /// A number, or nothing.
    Maybe(Option<u8>),
}

fn tell_bytes<E: Sink>(bytes: &[u8], sink: &mut E) -> Result<(), WriteFault>
    ensures { TellsText bytes.now (E.state sink.old) (E.state sink.new) result }
{
    sink.add(bytes)?;
    Ok(())
}

// Tells one piece.
fn tell_piece<E: Sink>(piece: Piece<'_>, sink: &mut E) -> Result<(), WriteFault>
    ensures { TellsText (piece_text piece.entry) (E.state sink.old) (E.state sink.new) result }
{
    let mut buffer = Buffer::new();
    match piece {
        Piece::Text(text) => tell_bytes(text.as_bytes(), sink),
        Piece::Number(number) => tell_bytes(buffer.format(number).as_bytes(), sink),
        Piece::Short(number) => tell_bytes(buffer.format(number).as_bytes(), sink),
        Piece::Maybe(Some(number)) => tell_bytes(buffer.format(number).as_bytes(), sink),
        Piece::Maybe(None) => tell_bytes(b"", sink),
    }
}

/// Tells pieces one after another, up to a failure.
pub fn tell<E: Sink>(pieces: &[Piece<'_>], sink: &mut E) -> Result<(), WriteFault>
    ensures { TellsText (joined_texts piece_text pieces.now)
        (E.state sink.old) (E.state sink.new) result }
{
    for piece in pieces {
        tell_piece(*piece, sink)?;
    }
    Ok(())
}

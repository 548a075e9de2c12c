// Small samples, and a loop of two frames; those of one cell and of four in a row are in
// test_stage.

/// A cell of grey 10, and two of grey 20 and 30.
pub const ONE_GREY: &[u8] = b"P6\n1 1\n255\n\x0a\x0a\x0a";

pub const TWO_GREYS: &[u8] = b"P6\n2 1\n255\n\x14\x14\x14\x1e\x1e\x1e";

/// Two cells of 2x2 pixels.
pub const TWO_CELLS: &[u8] = b"YUV4MPEG2 W4 H2 F25:1 Ip A1:1 C420jpeg XYSCSS=420JPEG\nFRAME\n\
\x01\x02\x03\x04\x05\x06\x07\x08\x09\x0a\x0b\x0c";

/// One cell in two frames, and in four frames of 0, 3, 0 and 3.
pub const TWO_FRAMES: &[u8] = b"YUV4MPEG2 W1 H1 Cmono\nFRAME\n\x0aFRAME\n\x14";

pub const FOUR_FRAMES: &[u8] =
    b"YUV4MPEG2 W1 H1 Cmono\nFRAME\n\x00FRAME\n\x03FRAME\n\x00FRAME\n\x03";

/// Nine cells of grey 0, 10, 50, then 30, 70, 100, then 20, 60, 90.
pub const NINE_CELLS: &[u8] = b"P6\n3 3\n255\n\
\x00\x00\x00\x0a\x0a\x0a\x32\x32\x32\
\x1e\x1e\x1e\x46\x46\x46\x64\x64\x64\
\x14\x14\x14\x3c\x3c\x3c\x5a\x5a\x5a";

/// A clip of three frames of nine cells, of one sample each.
pub const CUBE: &[u8] = b"YUV4MPEG2 W3 H3 F30:1 Cmono\n\
FRAME\n\x03\xc8\x07\x5a\x29\xfa\x82\x12\x4d\
FRAME\n\x05\xa0\xde\x1f\x63\x40\xb4\x0c\xf5\
FRAME\n\x35\x8c\x47\x09\xd2\x23\x76\x1b\x42";

/// Four cells of grey 10, 20, then 30, 40.
pub const SQUARE: &[u8] = b"P6\n2 2\n255\n\
\x0a\x0a\x0a\x14\x14\x14\
\x1e\x1e\x1e\x28\x28\x28";

/// Six cells of grey 10, 30, 50, then 20, 40, 60.
pub const OBLONG: &[u8] = b"P6\n3 2\n255\n\
\x0a\x0a\x0a\x1e\x1e\x1e\x32\x32\x32\
\x14\x14\x14\x28\x28\x28\x3c\x3c\x3c";

/// Three cells of grey 10, 20 and 30, and two of grey 10 and 20.
pub const THREE: &[u8] = b"P6\n3 1\n255\n\x0a\x0a\x0a\x14\x14\x14\x1e\x1e\x1e";

pub const PAIR: &[u8] = b"P6\n2 1\n255\n\x0a\x0a\x0a\x14\x14\x14";

/// Three frames of four cells, of one byte each.
pub const GREY_CLIP: &[u8] = b"YUV4MPEG2 W2 H2 F30:1 Cmono\n\
FRAME\n\x0a\x14\x1e\x28\
FRAME\n\x0b\x15\x1f\x29\
FRAME\n\x32\x3c\x46\x50";

/// Three frames of two cells, of three bytes each.
pub const COLOUR_CLIP: &[u8] = b"YUV4MPEG2 W2 H1 F30:1 C444\n\
FRAME\n\x01\x02\x03\x04\x05\x06\
FRAME\n\x0b\x0c\x0d\x0e\x0f\x10\
FRAME\n\x15\x16\x17\x18\x19\x1a";

// What a clip is.

use cells::Volume;
use items::Items;

/// How the pixels of a frame make cells: 1x1 pixels of luma alone, 1x1 of luma and two chroma samples,
/// or 2x1, 4x1 or 2x2 pixels that share their chroma samples.
#[derive(Clone, Copy, Drop, PartialEq, Eq)]
pub enum SpaceKind {
    Mono,
    C444,
    C422,
    C411,
    C420,
}

/// The tags of a stream line but W and H, in their order, each a letter and its value.
pub type Tags = Items<Items<u8>>;

/// What a clip's stream line says beside the size: the colour kind, and the tags that are carried to
/// an output.
#[derive(Drop)]
pub struct ClipForm {
    pub space: SpaceKind,
    pub tags: Tags,
}

/// A clip: its form, and a volume of w x h x f cells.
#[derive(Drop)]
pub struct Clip {
    pub form: ClipForm,
    pub volume: Volume,
}

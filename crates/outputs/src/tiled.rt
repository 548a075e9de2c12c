// What is made of a sample.
use sample_files::Sample;
use torus::Tiled;

/// The sample that was read, the output tiled from it, and what the seams of that cost in all, those across
/// the edges included.
#[derive(Drop)]
pub struct TiledSample {
    pub sample: Sample,
    pub tiled: Tiled,
    pub seams: u64,
}

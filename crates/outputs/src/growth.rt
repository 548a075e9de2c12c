// What is made of samples.
use cells::Sizes;
use grown::Grown;
use sample_files::Samples;

/// The samples that were worked over, the output grown and refined over them with its records, and what
/// its seams cost in all.
#[derive(Drop)]
pub struct Growth {
    /// The samples that were read, or with turns those of all their turns.
    pub samples: Samples,
    /// The sizes of the samples that were read.
    pub sizes: Sizes,
    pub grown: Grown,
    pub seams: u64,
}

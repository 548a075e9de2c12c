// The verdict on the files of a run.

/// Rule 15: the files go together in sizes, form and kind.
pub const TOGETHER_RULE: u32 = 15;
/// Rule 16: the records leave the map of the map file.
pub const MAP_RULE: u32 = 16;
/// Rule 17: each cell of the out picture is the samples' cell that the map file names.
pub const PICTURE_RULE: u32 = 17;

/// Whether the files of a run stand.
#[derive(Clone, Copy, Drop, PartialEq, Eq)]
pub enum Verdict {
    /// They stand.
    Stands,
    /// They break a rule, and this is the first.
    Fails {
        /// The number of the record that breaks it, from 1; 0 for a rule of whole files.
        number: u64,
        /// The number of the rule: 15, then those of the records, then 16 and 17.
        rule: u32,
        /// The first place where it is broken: that of the record's rule, 0 for `TOGETHER_RULE`,
        /// and for the other two the index of an output cell, in raster order.
        place: u64,
    },
}

/// The greatest number of cells of an image's heap.
pub const GREATEST_CELLS: u32 = 1_048_576;

/// The greatest number of calls of an image that are open at a time.
pub const GREATEST_DEPTH: u32 = 65_536;
